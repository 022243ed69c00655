// Candidates that move in a heap until it is one again. Assumes nothing.
ghost use Rattle.std.specs.Prelude.{◌≡◌, ◌+◌, ◌*◌, ◌<◌, true, length, slice_set};
ghost use Rattle.heap.specs.Shape.{at, Child, Heaped, Last, Rising, Sinking};
ghost use Rattle.heap.specs.Sorting.{sorted};
ghost use Rattle.store.specs.Order.{before};

use store::Candidate;

// Lets the candidate at `place` rise past every ancestor that it comes before.
pub(crate) fn rise(slots: &mut [Candidate], place: usize)
    requires within { place < length slots.old }
    requires rising { Rising slots.old (length slots.old) place }
    ensures same { sorted before slots.new ≡ sorted before slots.old }
    ensures heaped { Heaped slots.new (length slots.old) }
{
    // A loop, since the next place to look at depends on what the last turn swapped.
    let mut at = place;
    while at > 0 {
        let up = (at - 1) / 2;
        if !slots[at].before(&slots[up]) {
            return;
        }
        slots.swap(at, up);
        at = up;
    }
}

// Puts c into the place of a candidate that it comes before, and lets it rise.
pub(crate) fn replace(slots: &mut [Candidate], place: usize, c: Candidate)
    requires within { place < length slots.old }
    requires earlier { before c (at slots.old place) ≡ true }
    requires heaped { Heaped slots.old (length slots.old) }
    ensures same { sorted before slots.new ≡ sorted before (slice_set slots.old place c) }
    ensures heaped { Heaped slots.new (length slots.old) }
{
    slots[place] = c;
    rise(slots, place);
}

// Which of the children of `place` comes first.
fn first_child(slots: &[Candidate], place: usize) -> usize
    requires child { 2 * place + 1 < length slots.now }
    ensures { Child slots.now (length slots.now) place result }
{
    let left = 2 * place + 1;
    if left + 1 < slots.len() && slots[left + 1].before(&slots[left]) {
        left + 1
    } else {
        left
    }
}

// Lets the candidate in front sink past every child that comes before it.
pub(crate) fn sink(slots: &mut [Candidate])
    requires sinking { Sinking slots.old (length slots.old) 0 }
    ensures same { sorted before slots.new ≡ sorted before slots.old }
    ensures heaped { Heaped slots.new (length slots.old) }
{
    // A loop, since the next place to look at depends on what the last turn swapped.
    let mut at = 0;
    while at < slots.len() / 2 {
        let child = first_child(slots, at);
        if !slots[child].before(&slots[at]) {
            return;
        }
        slots.swap(at, child);
        at = child;
    }
}

// The place of the last from `start` on.
pub(crate) fn last_from(slots: &[Candidate], start: usize) -> usize
    requires within { start < length slots.now }
    ensures { Last slots.now start result }
{
    // A loop: max_by_key copies a key for each slot, and takes nearly twice as long.
    let mut last = start;
    for i in start..slots.len() {
        if slots[last].before(&slots[i]) {
            last = i;
        }
    }
    last
}
