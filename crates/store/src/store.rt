// What a store of candidates is: its kept list in order, its capacity and its floor, and what each call does to them.
// Assumes nothing.
ghost use Rattle.std.specs.Prelude.{◌≡◌, ℕ, ◌≤◌, true, List, [], length, None, Option};
ghost use Rattle.store.specs.declared.candidate.Candidate.{Candidate};
ghost use Rattle.store.specs.Meaning.{held_capacity, puts, takes, lowered, metric_of, first_metric, holds_row};
ghost use Rattle.store.specs.Order.{before};
ghost use Rattle.store.specs.Ordered.{in_order};

use crate::candidate::Candidate;

// The most that a store may keep.
pub const MOST: usize = 128;

// What stands in a slot that is not in use.
pub const BLANK: Candidate = Candidate {
    metric: 0,
    length: 0,
    serial: 0,
    row: 0,
};

// The capacity that a store has when it is emptied to the one wanted.
pub fn held_capacity(wanted: usize) -> usize
    ensures result { result ≡ held_capacity wanted }
{
    wanted.clamp(2, MOST)
}

pub trait Store {
    // The kept candidates, first to last.
    ghost kept: { Self → List Candidate };

    // How many may be kept.
    ghost capacity: { Self → ℕ };

    // The least metric shed since the store was emptied: absent until something has been shed.
    ghost floor: { Self → Option ℕ };

    fn empty(&mut self, wanted: usize)
        ensures kept { kept self.new ≡ [] }
        ensures capacity { capacity self.new ≡ held_capacity wanted }
        ensures floor { floor self.new ≡ None };

    fn put(&mut self, c: Candidate)
        ensures kept { kept self.new ≡ (puts before (capacity self.old) (kept self.old) c).stays }
        ensures capacity { capacity self.new ≡ capacity self.old }
        ensures floor { floor self.new ≡ lowered metric_of (floor self.old) (puts before (capacity self.old) (kept self.old) c).shed };

    fn take(&mut self) -> Option<Candidate>
        ensures result { result ≡ (takes (kept self.old)).answer }
        ensures kept { kept self.new ≡ (takes (kept self.old)).stays }
        ensures capacity { capacity self.new ≡ capacity self.old }
        ensures floor { floor self.new ≡ lowered metric_of (floor self.old) (takes (kept self.old)).shed };

    fn count(&self) -> usize
        ensures result { result ≡ length (kept self.now) };

    fn capacity(&self) -> usize
        ensures result { result ≡ capacity self.now };

    fn first_metric(&self) -> Option<u32>
        ensures result { result ≡ first_metric (kept self.now) };

    fn floor(&self) -> Option<u32>
        ensures result { result ≡ floor self.now };

    fn holds_row(&self, row: u8) -> bool
        ensures result { result ≡ holds_row row (kept self.now) };

    ghost ordered: { (s : Self) → in_order before (kept s) ≡ true };

    ghost within: { (s : Self) → length (kept s) ≤ capacity s };

    ghost sized: { (s : Self) → (2 ≤ capacity s) × (capacity s ≤ 128) };
}
