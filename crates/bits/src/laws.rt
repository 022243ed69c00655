// What holds of the transform itself, and a row that shows it. Assumes nothing.
ghost use Rattle.std.specs.Prelude.{◌≡◌, ℕ, ◌^◌, ◌<◌, Bool};
ghost use Rattle.bits.specs.Laws.{Halves, OneOf32, of_five};
ghost use Rattle.bits.specs.Row.{row_bit};

use crate::row::Row;

pub fn transform_by_halves()
    ensures { (n : ℕ) (u : ℕ → Bool) (i : ℕ) → i < 2 ^ n → Halves n u i }
{}

// At 32 bits u5 alone makes code bits 0, 1, 4 and 5: by the rule, and in a row.
pub fn one_of_32() -> Row
    ensures rule { OneOf32 }
    ensures result { (i : ℕ) → row_bit result i ≡ of_five i }
{
    let mut row = Row::zero();
    row.set(5, true);
    row.transform(5);
    row
}
