// The cost of a path, bit by bit. For the programs of this repository, which hand in room enough: hence the `requires`.
ghost use Rattle.std.specs.Prelude.{◌≡◌, ℕ, ◌-◌, ◌*◌, ◌^◌, ◌<◌, ◌≤◌, length, pos, slice_index_or};
ghost use Rattle.bits.specs.Row.{row_bit};
ghost use Rattle.cost.specs.Block.{llr_of, size_of};
ghost use Rattle.cost.specs.Levels.{KeptAround, Levels};
ghost use Rattle.cost.specs.Path.{cost};

use super::Soft;
use crate::value::contradiction;
use bits::Row;

impl Soft {
    // What the first len bits of the path in row cost.
    pub fn path_cost(&self, row: &Row, len: usize, scratch: &mut [i32]) -> u32
        requires place { len ≤ 2 ^ size_of self.now }
        requires room { 2 * 2 ^ size_of self.now ≤ length scratch.old }
        ensures result { result ≡ cost (size_of self.now) (llr_of self.now) (row_bit row.now) len }
        ensures levels { 0 < len → Levels (size_of self.now) (llr_of self.now) (row_bit row.now) (len - 1) 0 scratch.new }
        ensures untouched { len ≡ 0 → scratch.new ≡ scratch.old }
        ensures around { KeptAround (size_of self.now) scratch.old scratch.new }
    {
        // A loop: of a sum over a closure that writes scratch no fact would be known.
        let mut total = 0;
        for i in 0..len {
            total += contradiction(self.decision(row, i, scratch), row.get(i));
        }
        total
    }
}
