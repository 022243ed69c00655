// A store as a binary heap. Assumes nothing.
mod calls;

ghost use Rattle.std.specs.Prelude.{length};
ghost use Rattle.heap.specs.Shape.{Heaped};
ghost use Rattle.store.specs.Slots.{used};

use store::slots::Slots;

#[derive(Clone, Copy, Drop)]
pub struct Heap {
    slots: Slots,
    ghost heaped: { Heaped (used slots) (length (used slots)) },
}
