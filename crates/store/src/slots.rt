// For the stores of this repository alone, since two calls ask something of the caller: the memory that each store has,
// and what they all do with it. Assumes nothing.
ghost use Rattle.std.specs.Fn.{FnOnceTakesAtMut, FnOnceReturnsAtMut};
ghost use Rattle.std.specs.List.{list_any};
ghost use Rattle.std.specs.Prelude.{◌==◌, ◌≡◌, ◌↔◌, ◌<◌, ◌≤◌, [], ◌∷◌, ◌++◌, length, Some, None, IsTrue, MatchOption};
ghost use Rattle.store.specs.Lesser.{lesser_of};
ghost use Rattle.store.specs.Meaning.{first_metric, held_capacity, holds_row};

use crate::candidate::Candidate;
use crate::minimum::lesser;
use crate::store::{BLANK, MOST, held_capacity};

// The candidates in use stand in front, in an order that is each store's own. An array and a length: stores want no heap.
#[derive(Clone, Copy, Drop)]
pub struct Slots {
    all: [Candidate; MOST],
    len: usize,
    capacity: usize,
    floor: Option<u32>,
    ghost whole: { length all ≡ 128 },
    ghost within: { len ≤ capacity },
    ghost least: { 2 ≤ capacity },
    ghost most: { capacity ≤ 128 },
}

impl Slots {
    ghost use Rattle.store.specs.Slots.{used, room, lowest};

    // None in use, and room for as many as in any store.
    pub fn new() -> Slots
        ensures used { used result ≡ [] }
        ensures room { room result ≡ 128 }
        ensures lowest { lowest result ≡ None }
    {
        Slots {
            all: [BLANK; MOST],
            len: 0,
            capacity: MOST,
            floor: None,
        }
    }

    pub fn empty(&mut self, wanted: usize)
        ensures used { used self.new ≡ [] }
        ensures room { room self.new ≡ held_capacity wanted }
        ensures lowest { lowest self.new ≡ None }
    {
        self.len = 0;
        self.capacity = held_capacity(wanted);
        self.floor = None;
    }

    // Those in use.
    pub fn as_slice(&self) -> &[Candidate]
        ensures { result.now ≡ used self.now }
    {
        &self.all[0..self.len]
    }

    pub fn len(&self) -> usize
        ensures { result ≡ length (used self.now) }
    {
        self.as_slice().len()
    }

    pub fn is_empty(&self) -> bool
        ensures { IsTrue result ↔ (used self.now ≡ []) }
    {
        self.len == 0
    }

    pub fn is_full(&self) -> bool
        ensures { IsTrue result ↔ (length (used self.now) ≡ room self.now) }
    {
        self.len == self.capacity
    }

    pub fn capacity(&self) -> usize
        ensures { result ≡ room self.now }
    {
        self.capacity
    }

    pub fn floor(&self) -> Option<u32>
        ensures { result ≡ lowest self.now }
    {
        self.floor
    }

    pub fn first_metric(&self) -> Option<u32>
        ensures { result ≡ first_metric (used self.now) }
    {
        self.as_slice().first().map(|c| c.metric)
    }

    // Whether one of those in use holds the row.
    pub fn holds_row(&self, row: u8) -> bool
        ensures { result ≡ holds_row row (used self.now) }
    {
        row_among(self.as_slice(), row)
    }

    // Lets `f` change those in use.
    pub fn rearrange<R, F: FnOnce(&mut [Candidate]) -> R>(&mut self, f: F) -> R
        requires callable { FnOnceTakesAtMut F.FnOnce f (used self.old) }
        ensures called { FnOnceReturnsAtMut F.FnOnce f (used self.old) result (used self.new) }
        ensures len { length (used self.new) ≡ length (used self.old) }
        ensures room { room self.new ≡ room self.old }
        ensures lowest { lowest self.new ≡ lowest self.old }
    {
        f(&mut self.all[0..self.len])
    }

    // Takes one more into use, behind the others.
    pub fn push(&mut self, c: Candidate)
        requires fits { length (used self.old) < room self.old }
        ensures used { used self.new ≡ used self.old ++ c ∷ [] }
        ensures room { room self.new ≡ room self.old }
        ensures lowest { lowest self.new ≡ lowest self.old }
    {
        self.all[self.len] = c;
        self.len += 1;
    }

    // Takes the last out of use.
    pub fn pop(&mut self) -> Option<Candidate>
        ensures cases { MatchOption result (used self.old ≡ []) (λ c. used self.old ≡ used self.new ++ c ∷ []) }
        ensures room { room self.new ≡ room self.old }
        ensures lowest { lowest self.new ≡ lowest self.old }
    {
        self.len = self.len.checked_sub(1)?;
        Some(self.all[self.len])
    }

    // Lowers the floor to what a candidate that is thrown away costs.
    pub fn shed(&mut self, c: Candidate)
        ensures used { used self.new ≡ used self.old }
        ensures room { room self.new ≡ room self.old }
        ensures lowest { lowest self.new ≡ lesser_of (lowest self.old) (Some c.metric) }
    {
        self.floor = lesser(self.floor, Some(c.metric));
    }
}

fn row_among(slots: &[Candidate], row: u8) -> bool
    ensures { result ≡ list_any (λ c. c.row == row) slots.now }
{
    slots.iter().any(|c| c.row == row)
}
