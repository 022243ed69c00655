// Taking a block's soft values from a slice, and reading them. Assumes nothing.
ghost use Rattle.std.specs.Prelude.{◌≡◌, ℕ, ◌≤◌, true, false, length, pos, MatchOption, slice_index_or};
ghost use Rattle.cost.specs.Block.{llr_of, size_of};
ghost use Rattle.cost.specs.Limits.{is_loadable, first_beyond};

use super::Soft;

const LIMIT: u32 = 1_048_576;

// Which value is the first that is out of range, if any is.
pub fn first_beyond(llrs: &[i32]) -> Option<usize>
    ensures { result ≡ first_beyond llrs.now }
{
    llrs.iter().position(|value| value.unsigned_abs() > LIMIT)
}

// The values, with zeros after them.
fn padded(llrs: &[i32]) -> [i32; 1024]
    requires size { length llrs.now ≤ 1024 }
    ensures len { length result ≡ 1024 }
    ensures values { (j : ℕ) → slice_index_or result j (pos 0) ≡ slice_index_or llrs.now j (pos 0) }
{
    let mut values = [0; 1024];
    values[..llrs.len()].copy_from_slice(llrs);
    values
}

impl Soft {
    pub fn zero() -> Soft
        ensures size { size_of result ≡ 0 }
        ensures values { (k : ℕ) → llr_of result k ≡ pos 0 }
    {
        Soft {
            n: 0,
            values: [0; 1024],
        }
    }

    // The block of 2^n values, where the slice is one.
    pub fn new(n: usize, llrs: &[i32]) -> Option<Soft>
        ensures { MatchOption result (is_loadable n llrs.now ≡ false) (λ block. (is_loadable n llrs.now ≡ true) × (size_of block ≡ n) × ((k : ℕ) → llr_of block k ≡ slice_index_or llrs.now k (pos 0))) }
    {
        if n > 10 || llrs.len() != 1 << n || first_beyond(llrs).is_some() {
            return None;
        }
        Some(Soft {
            n,
            values: padded(llrs),
        })
    }

    // The block has 2^n values.
    pub fn n(&self) -> usize
        ensures { result ≡ size_of self.now }
    {
        self.n
    }

    pub fn llr(&self, k: usize) -> i32
        ensures { result ≡ llr_of self.now k }
    {
        if k < 1024 { self.values[k] } else { 0 }
    }
}
