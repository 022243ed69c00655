// The calls of a table. Assumes nothing.
ghost use Rattle.std.specs.Prelude.{◌≡◌, true, [], ◌∷◌, ◌++◌, if◌then◌else◌, None};
ghost use Rattle.store.specs.Order.{before};
ghost use Rattle.store.specs.Ordered.{inserted, in_order};
ghost use Rattle.store.specs.Tables.{table_kept, table_capacity, table_floor};
ghost use Rattle.store.specs.Slots.{used-within};

use crate::candidate::Candidate;
use crate::slots::Slots;
use crate::store::Store;
use crate::table::Table;

impl Table {
    // Keeps nothing, and has room for as many as any store.
    pub fn new() -> Table
        ensures kept { table_kept result ≡ [] }
        ensures capacity { table_capacity result ≡ 128 }
        ensures floor { table_floor result ≡ None }
    {
        Table {
            slots: Slots::new(),
        }
    }
}

// The two, the one that comes first before the other.
fn in_turn(a: Candidate, b: Candidate) -> (Candidate, Candidate)
    ensures first { result.0 ≡ (if before a b then a else b) }
    ensures second { result.1 ≡ (if before a b then b else a) }
{
    if a.before(&b) { (a, b) } else { (b, a) }
}

// Puts c into its place among slots that are in order, with each later one a place on, and answers the last of them all.
fn squeeze_in(slots: &mut [Candidate], c: Candidate) -> Candidate
    requires ordered { in_order before slots.old ≡ true }
    ensures { slots.new ++ result ∷ [] ≡ inserted before slots.old c }
{
    let mut last = c;
    for slot in slots.iter_mut() {
        let (stays, goes) = in_turn(*slot, last);
        *slot = stays;
        last = goes;
    }
    last
}

impl Store for Table {
    ghost kept = { table_kept };

    ghost capacity = { table_capacity };

    ghost floor = { table_floor };

    ghost ordered = { λ t. t.ordered };

    ghost within = { λ t. used-within t.slots };

    ghost sized = { λ t. (t.slots.least, t.slots.most) };

    fn empty(&mut self, wanted: usize) {
        self.slots.empty(wanted);
    }

    fn put(&mut self, c: Candidate) {
        let last = self.slots.rearrange(|used| squeeze_in(used, c));
        if self.slots.is_full() {
            self.slots.shed(last);
        } else {
            self.slots.push(last);
        }
    }

    fn take(&mut self) -> Option<Candidate> {
        if self.slots.is_empty() {
            return None;
        }
        self.slots.rearrange(|used| used.rotate_left(1));
        self.slots.pop()
    }

    fn count(&self) -> usize {
        self.slots.len()
    }

    fn capacity(&self) -> usize {
        self.slots.capacity()
    }

    fn first_metric(&self) -> Option<u32> {
        self.slots.first_metric()
    }

    fn floor(&self) -> Option<u32> {
        self.slots.floor()
    }

    fn holds_row(&self, row: u8) -> bool {
        self.slots.holds_row(row)
    }
}
