// Long division of polynomials over bits, in place. Assumes nothing.
ghost use Rattle.std.specs.Prelude.{◌≡◌, ◌+◌, ◌≤◌, length, drop};
ghost use Rattle.crc.specs.Division.{added, divided};

// Adds the divisor's lower coefficients onto the front of some bits.
fn add_onto(bits: &mut [bool], divisor: &[bool])
    requires room { length divisor.now ≤ length bits.old }
    ensures { bits.new ≡ added divisor.now bits.old }
{
    // by index: behind a zip with iter_mut a proof loses what is written
    for (k, d) in divisor.iter().enumerate() {
        bits[k] ^= *d;
    }
}

// Makes as many steps of long division as asked; the remainder is what stands after those bits.
pub fn divide(bits: &mut [bool], steps: usize, divisor: &[bool])
    requires room { steps + length divisor.now ≤ length bits.old }
    ensures { drop steps bits.new ≡ divided divisor.now steps bits.old }
{
    // by index: a step changes what stands behind its bit
    for i in 0..steps {
        if bits[i] {
            add_onto(&mut bits[i + 1..], divisor);
        }
    }
}
