// Decision values one after the other: only the levels that changed since the last one are made again.
// For the decoder, which hands in room enough and what the last one left: hence the `requires`.
ghost use Rattle.std.specs.Prelude.{◌≡◌, IsTrue, ℕ, ◌*◌, ◌^◌, ◌<◌, ◌≤◌, length, pos, slice_index_or, Some};
ghost use Rattle.bits.specs.Row.{row_bit};
ghost use Rattle.cost.specs.Block.{llr_of, size_of};
ghost use Rattle.cost.specs.Levels.{KeptAround, Levels, Shared};
ghost use Rattle.cost.specs.Memo.{Held};
ghost use Rattle.cost.specs.Path.{decision};

use super::Soft;
use crate::memo::Memo;
use bits::Row;

impl Soft {
    // The lowest level that scratch already has for position i of the path in row; the top is filled if it has none.
    fn ready_level(&self, last: &Option<Memo>, row: &Row, i: usize, scratch: &mut [i32]) -> usize
        requires place { i < 2 ^ size_of self.now }
        requires room { 2 * 2 ^ size_of self.now ≤ length scratch.old }
        requires held { Held (size_of self.now) (llr_of self.now) last.now scratch.old }
        ensures inside { result ≤ size_of self.now }
        ensures levels { Levels (size_of self.now) (llr_of self.now) (row_bit row.now) i result scratch.new }
        ensures around { KeptAround (size_of self.now) scratch.old scratch.new }
    {
        match last {
            Some(last) => shared_level(self.n, last, row, i),
            None => {
                self.fill_top(scratch);
                self.n
            }
        }
    }

    // The decision value at position i of the path in row, from what scratch holds of the last one, if of any.
    pub fn decision_with(
        &self,
        last: &mut Option<Memo>,
        row: &Row,
        i: usize,
        scratch: &mut [i32],
    ) -> i32
        requires place { i < 2 ^ size_of self.now }
        requires room { 2 * 2 ^ size_of self.now ≤ length scratch.old }
        requires held { Held (size_of self.now) (llr_of self.now) last.old scratch.old }
        ensures value { result ≡ decision (size_of self.now) (llr_of self.now) (row_bit row.now) i }
        ensures last { last.new ≡ Some (record { path = row.now; at = i }) }
        ensures held { Held (size_of self.now) (llr_of self.now) last.new scratch.new }
        ensures around { KeptAround (size_of self.now) scratch.old scratch.new }
    {
        let low = self.ready_level(last, row, i, scratch);
        self.descend(row, i, low, scratch);
        *last = Some(Memo { path: *row, at: i });
        scratch[1]
    }
}

// Whether level m is seen to be the same at position i of the path in row as at the last position.
fn is_shared(m: usize, last: &Memo, row: &Row, i: usize) -> bool
    requires size { (m < 10) × (i < 1024) }
    ensures { IsTrue result → Shared m (row_bit row.now) i (row_bit last.now.path) last.now.at }
{
    i >> m == last.at >> m && row.agrees(&last.path, i >> m << m)
}

// The lowest level that is seen to be the same.
fn shared_level(n: usize, last: &Memo, row: &Row, i: usize) -> usize
    requires size { (n ≤ 10) × (i < 1024) }
    ensures inside { result ≤ n }
    ensures shared { result < n → Shared result (row_bit row.now) i (row_bit last.now.path) last.now.at }
{
    (0..n).find(|m| is_shared(*m, last, row, i)).unwrap_or(n)
}
