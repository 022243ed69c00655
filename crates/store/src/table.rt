// A store as a table: the kept candidates stand in order. Assumes nothing.
mod calls;

ghost use Rattle.std.specs.Prelude.{◌≡◌, true};
ghost use Rattle.store.specs.Order.{before};
ghost use Rattle.store.specs.Ordered.{in_order};
ghost use Rattle.store.specs.Slots.{used};

use crate::slots::Slots;

#[derive(Clone, Copy, Drop)]
pub struct Table {
    slots: Slots,
    ghost ordered: { in_order before (used slots) ≡ true },
}
