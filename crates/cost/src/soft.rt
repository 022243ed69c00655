// The soft values of a block, within limits. Assumes nothing.
ghost use Rattle.std.specs.Prelude.{◌≡◌, ℕ, ◌≤◌, length, pos, slice_index_or, unsigned_abs};

mod again;
mod levels;
mod load;
mod total;

pub use load::first_beyond;

// 2^n LLRs; what lies beyond them is 0.
#[derive(Clone, Copy, Drop)]
pub struct Soft {
    n: usize,
    values: [i32; 1024],
    ghost size: { n ≤ 10 },
    ghost whole: { length values ≡ 1024 },
    ghost bounded: { (k : ℕ) → unsigned_abs (slice_index_or values k (pos 0)) ≤ 1048576 },
}
