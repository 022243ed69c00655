// Memory in which the decision values of one block are worked out one after the other, and what it remembers of the last.
// For the decoder, which hands in room enough and asks of positions of the block: hence the `requires`.
ghost use Rattle.std.specs.Prelude.{◌≡◌, ℕ, ◌*◌, ◌^◌, ◌<◌, ◌≤◌, length, pos, slice_index_or};
ghost use Rattle.bits.specs.Row.{row_bit};
ghost use Rattle.cost.specs.Block.{llr_of, size_of};
ghost use Rattle.cost.specs.Levels.{KeptAround};
ghost use Rattle.cost.specs.Memo.{Held};
ghost use Rattle.cost.specs.Path.{decision};

use crate::memo::Memo;
use crate::soft::Soft;
use bits::Row;

#[derive(Drop)]
pub struct Workspace<'a> {
    block: &'a Soft,
    scratch: &'a mut [i32],
    last: Option<Memo>,
    ghost room: { 2 * 2 ^ size_of block.now ≤ length scratch.now },
    ghost held: { Held (size_of block.now) (llr_of block.now) last scratch.now },
}

impl<'a> Workspace<'a> {
    ghost use Rattle.cost.specs.Workspace.{last_in, list_in, loan_in, soft_in};

    pub fn new(block: &'a Soft, scratch: &'a mut [i32]) -> Workspace<'a>
        requires room { 2 * 2 ^ size_of block.now ≤ length scratch.old }
        ensures block { soft_in result ≡ block.now }
        ensures last { last_in result ≡ None }
        ensures list { list_in result ≡ scratch.entry.now }
        ensures loan { loan_in result ≡ scratch.entry.ghost_name }
    {
        Workspace {
            block,
            scratch,
            last: None,
        }
    }

    // The decision value at position i of the path in row.
    pub fn decision(&mut self, row: &Row, i: usize) -> i32
        requires place { i < 2 ^ size_of (soft_in self.old) }
        ensures value { result ≡ decision (size_of (soft_in self.old)) (llr_of (soft_in self.old)) (row_bit row.now) i }
        ensures last { last_in self.new ≡ Some (record { path = row.now; at = i }) }
        ensures block { soft_in self.new ≡ soft_in self.old }
        ensures loan { loan_in self.new ≡ loan_in self.old }
        ensures around { KeptAround (size_of (soft_in self.old)) (list_in self.old) (list_in self.new) }
    {
        let scratch = &mut *self.scratch;
        self.block.decision_with(&mut self.last, row, i, scratch)
    }
}
