// The calls of a heap. Assumes nothing.
ghost use Rattle.std.specs.Prelude.{◌≡◌, ◌≤◌, [], length, None};
ghost use Rattle.heap.specs.Heaps.{heap_kept, heap_capacity, heap_floor};
ghost use Rattle.store.specs.Order;
ghost use Rattle.store.proofs.Candidates.{strict};
ghost use Rattle.store.specs.Slots.{used, used-within};
ghost use Rattle.heap.specs.Sorts.{in-order-sorted, length-sorted};
ghost use Rattle.std.proofs.Common.{arith};

use crate::binary::Heap;
use crate::sift::{last_from, replace, rise, sink};
use store::slots::Slots;
use store::{Candidate, Store};

impl Heap {
    // Keeps nothing, and has room for as many as any store.
    pub fn new() -> Heap
        ensures kept { heap_kept result ≡ [] }
        ensures capacity { heap_capacity result ≡ 128 }
        ensures floor { heap_floor result ≡ None }
    {
        Heap {
            slots: Slots::new(),
        }
    }
}

impl Store for Heap {
    ghost kept = { heap_kept };

    ghost capacity = { heap_capacity };

    ghost floor = { heap_floor };

    ghost ordered = { λ h. in-order-sorted Order.before strict _ };

    ghost within = { λ h. omega (arith, length-sorted Order.before (used h.slots), used-within h.slots) };

    ghost sized = { λ h. (h.slots.least, h.slots.most) };

    fn empty(&mut self, wanted: usize) {
        self.slots.empty(wanted);
    }

    fn put(&mut self, c: Candidate) {
        if !self.slots.is_full() {
            let place = self.slots.len();
            self.slots.push(c);
            self.slots.rearrange(|used| rise(used, place));
            return;
        }
        // The last of the kept has no child.
        let used = self.slots.as_slice();
        let place = last_from(used, used.len() / 2);
        let last = used[place];
        if !c.before(&last) {
            self.slots.shed(c);
            return;
        }
        self.slots.rearrange(|used| replace(used, place, c));
        self.slots.shed(last);
    }

    fn take(&mut self) -> Option<Candidate> {
        let rest = self.slots.len().checked_sub(1)?;
        self.slots.rearrange(|used| used.swap(0, rest));
        let first = self.slots.pop();
        self.slots.rearrange(sink);
        first
    }

    fn count(&self) -> usize {
        self.slots.len()
    }

    fn capacity(&self) -> usize {
        self.slots.capacity()
    }

    fn first_metric(&self) -> Option<u32> {
        self.slots.first_metric()
    }

    fn floor(&self) -> Option<u32> {
        self.slots.floor()
    }

    fn holds_row(&self, row: u8) -> bool {
        self.slots.holds_row(row)
    }
}
