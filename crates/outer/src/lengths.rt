// The one test of lengths that every check makes. Assumes nothing.
ghost use Rattle.std.specs.Prelude.{◌≡◌, is_ok};
ghost use Rattle.crc.specs.Lengths.{fitting};

use super::misfit::Misfit;

// A payload of a bits and a word of k bits belong together under a check.
pub fn fits(longest: usize, bits: usize, a: usize, k: usize) -> Result<(), Misfit>
    ensures { is_ok result ≡ fitting longest bits a k }
{
    if a <= longest && a <= k && k - a == bits {
        Ok(())
    } else {
        Err(Misfit)
    }
}
