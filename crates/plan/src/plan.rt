// The plan of a code block, a type whose every value is lawful. Assumes nothing.
mod make;
mod read;

ghost use Rattle.std.specs.Prelude.{◌≡◌, ℕ, ◌+◌, ◌^◌, ◌≤◌, true, false, ◌||◌, length, ◌==◌, slice_index_or};
ghost use Rattle.base.specs.Counts.{count_below};
ghost use Rattle.plan.specs.declared.kind.Kind.TheVariants.{Frozen};
ghost use Rattle.plan.specs.Kinds.{is_information, is_parity};
ghost use Rattle.plan.specs.Order.{mode_of, sent_by, barred_by};

use crate::kind::Kind;
use crate::mode::Mode;
use crate::reliability::POSITIONS;

#[derive(Clone, Copy)]
pub struct Plan {
    // N is 2 ^ n
    n: u8,
    // A
    payload: u16,
    // L; K is A + L
    check_bits: u8,
    // E
    sent: u16,
    // t
    low: u16,
    // p
    parity: u8,
    mode: Mode,
    // whether a code place is sent
    marks: [bool; POSITIONS],
    kinds: [Kind; POSITIONS],
    // the numbers are within their limits
    ghost sized: { (5 ≤ n) × (n ≤ 10) },
    ghost paid: { (1 ≤ payload) × (payload ≤ 512) },
    ghost guarded: { check_bits ≤ 24 },
    ghost aired: { (1 ≤ sent) × (sent ≤ 8192) },
    ghost lowered: { low ≤ 2 ^ n },
    ghost paired: { (parity == 0 || parity == 3) ≡ true },
    // the mode and the sent places are those of the numbers
    ghost moded: { mode ≡ mode_of n (payload + check_bits) sent },
    ghost marked: { (i : ℕ) → slice_index_or marks i false ≡ sent_by mode n sent i },
    // exactly K information and p parity positions in the block, none of them barred, all else frozen
    ghost informed: { count_below (λ i. is_information (slice_index_or kinds i Frozen)) (2 ^ n) ≡ payload + check_bits },
    ghost checked: { count_below (λ i. is_parity (slice_index_or kinds i Frozen)) (2 ^ n) ≡ parity },
    ghost unbarred: { (i : ℕ) → barred_by mode n sent low i ≡ true → slice_index_or kinds i Frozen ≡ Frozen },
    ghost beyond: { (i : ℕ) → 2 ^ n ≤ i → slice_index_or kinds i Frozen ≡ Frozen },
}
