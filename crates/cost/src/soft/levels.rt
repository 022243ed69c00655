// Decision values by level, in scratch: level m from place 2^m on, the soft values themselves at the top.
// For the decoder and the programs of this repository, which hand in room enough: hence the `requires`. It is asked of
// each, and not of a type, since what scratch holds after is promised of the slice itself.
ghost use Rattle.std.specs.Prelude.{◌≡◌, ℕ, suc, ◌+◌, ◌*◌, ◌^◌, ◌<◌, ◌≤◌, ℤ, length, pos, slice_index_or, unsigned_abs};
ghost use Rattle.bits.specs.Row.{row_bit};
ghost use Rattle.cost.specs.Block.{llr_of, size_of};
ghost use Rattle.cost.specs.Levels.{Filled, KeptAround, Levels, halved, level, paired};
ghost use Rattle.cost.specs.Path.{decision};

use super::Soft;
use crate::value::{first_value, second_value};
use bits::Row;

// The two values above place k of level m.
fn pair_above(m: usize, k: usize, scratch: &[i32]) -> (i32, i32)
    requires size { m < 10 }
    requires place { k < 2 ^ m }
    requires room { 4 * 2 ^ m ≤ length scratch.now }
    requires bounded { (j : ℕ) → j < 2 ^ suc m → unsigned_abs (level scratch.now (suc m) j) ≤ 2 ^ 29 }
    ensures low { result.0 ≡ level scratch.now (suc m) k }
    ensures high { result.1 ≡ level scratch.now (suc m) (2 ^ m + k) }
    ensures small { (unsigned_abs result.0 ≤ 2 ^ 29) × (unsigned_abs result.1 ≤ 2 ^ 29) }
{
    let half = 1 << m;
    (scratch[2 * half + k], scratch[3 * half + k])
}

// Level m by a rule: the value at each place, from the pair above it.
fn fill_by<F: Fn(usize, i32, i32) -> i32>(m: usize, rule: F, scratch: &mut [i32])
    requires size { m < 10 }
    requires room { 4 * 2 ^ m ≤ length scratch.old }
    requires bounded { (k : ℕ) → k < 2 ^ suc m → unsigned_abs (level scratch.old (suc m) k) ≤ 2 ^ 29 }
    requires callable { (k : ℕ) (a b : ℤ) → k < 2 ^ m → unsigned_abs a ≤ 2 ^ 29 → unsigned_abs b ≤ 2 ^ 29 → F.pre rule k a b }
    ensures { (value : ℕ → ℤ → ℤ → ℤ) → ((k : ℕ) (a b v : ℤ) → k < 2 ^ m → unsigned_abs a ≤ 2 ^ 29 → unsigned_abs b ≤ 2 ^ 29 → F.post rule k a b v → v ≡ value k a b) → Filled (2 ^ m) (2 ^ m) (paired m value scratch.old) scratch.old scratch.new }
{
    let half = 1 << m;
    // By index: of values written through split_at_mut and zip a proof knows only how many there are.
    for k in 0..half {
        let (a, b) = pair_above(m, k, scratch);
        scratch[half + k] = rule(k, a, b);
    }
}

// Level m of position i of the path in row, from the level above.
fn fill_level(m: usize, row: &Row, i: usize, scratch: &mut [i32])
    requires size { (m < 10) × (i < 1024) }
    requires room { 4 * 2 ^ m ≤ length scratch.old }
    requires bounded { (k : ℕ) → k < 2 ^ suc m → unsigned_abs (level scratch.old (suc m) k) ≤ 2 ^ 29 }
    ensures { Filled (2 ^ m) (2 ^ m) (halved m (level scratch.old (suc m)) (row_bit row.now) i) scratch.old scratch.new }
{
    if (i >> m) % 2 == 0 {
        fill_by(m, |_, a, b| first_value(a, b), scratch);
        return;
    }
    let base = i >> (m + 1) << (m + 1);
    let mut code = *row;
    code.transform_block(base, m);
    fill_by(m, |k, a, b| second_value(a, b, code.get(base + k)), scratch);
}

impl Soft {
    // The soft values themselves, as the top level.
    pub(crate) fn fill_top(&self, scratch: &mut [i32])
        requires room { 2 * 2 ^ size_of self.now ≤ length scratch.old }
        ensures { Filled (2 ^ size_of self.now) (2 ^ size_of self.now) (llr_of self.now) scratch.old scratch.new }
    {
        let size = 1 << self.n;
        scratch[size..2 * size].copy_from_slice(&self.values[..size]);
    }

    // The levels below low, from low and those above it.
    pub(crate) fn descend(&self, row: &Row, i: usize, low: usize, scratch: &mut [i32])
        requires place { (i < 2 ^ size_of self.now) × (low ≤ size_of self.now) }
        requires room { 2 * 2 ^ size_of self.now ≤ length scratch.old }
        requires levels { Levels (size_of self.now) (llr_of self.now) (row_bit row.now) i low scratch.old }
        ensures levels { Levels (size_of self.now) (llr_of self.now) (row_bit row.now) i 0 scratch.new }
        ensures around { KeptAround (size_of self.now) scratch.old scratch.new }
    {
        // m numbers the levels, which no list holds
        for m in (0..low).rev() {
            fill_level(m, row, i, scratch);
        }
    }

    // The decision value at position i of the path in row. Scratch then holds the levels that lead to it.
    pub fn decision(&self, row: &Row, i: usize, scratch: &mut [i32]) -> i32
        requires place { i < 2 ^ size_of self.now }
        requires room { 2 * 2 ^ size_of self.now ≤ length scratch.old }
        ensures value { result ≡ decision (size_of self.now) (llr_of self.now) (row_bit row.now) i }
        ensures levels { Levels (size_of self.now) (llr_of self.now) (row_bit row.now) i 0 scratch.new }
        ensures around { KeptAround (size_of self.now) scratch.old scratch.new }
    {
        self.fill_top(scratch);
        self.descend(row, i, self.n, scratch);
        scratch[1]
    }
}
