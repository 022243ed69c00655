// Word bits on information positions, and the parity bits that follow from them. Assumes nothing.
// Plan and row are not yet a Laid here: until the parity bits are set, the row is not lawful.
ghost use Rattle.std.specs.Prelude.{◌≡◌, ℕ, ◌%◌, ◌&&◌, length, if◌then◌else◌, ◌==◌};
ghost use Rattle.bits.specs.Row.{row_bit};
ghost use Rattle.plan.specs.Kinds.{is_information, is_parity};
ghost use Rattle.plan.specs.Plans.{kind_at, word_bits};
ghost use Rattle.code.specs.Lawful.{parity_sum};
ghost use Rattle.code.specs.Laying.{word_bit_at};

use bits::Row;
use plan::{Kind, Plan};

fn is_information(plan: &Plan, i: usize) -> bool
    ensures { result ≡ is_information (kind_at plan.now i) }
{
    plan.kind(i) == Kind::Information
}

fn is_parity(plan: &Plan, i: usize) -> bool
    ensures { result ≡ is_parity (kind_at plan.now i) }
{
    plan.kind(i) == Kind::Parity
}

// The row with the word's bits on the plan's information positions.
pub fn place_word(plan: &Plan, word: &[bool]) -> Row
    requires whole { length word.now ≡ word_bits plan.now }
    ensures { (i : ℕ) → row_bit result i ≡ (is_information (kind_at plan.now i) && word_bit_at (kind_at plan.now) word.now i) }
{
    let mut row = Row::zero();
    let positions = (0..plan.length()).filter(|i| is_information(plan, *i));
    for (i, bit) in positions.zip(word) {
        row.set(i, *bit);
    }
    row
}

// The bit at j where it is one of those that a parity bit at i sums, else false.
fn summand(plan: &Plan, row: &Row, i: usize, j: usize) -> bool
    ensures { result ≡ (is_information (kind_at plan.now j) && (j % 5 == i % 5 && row_bit row.now j)) }
{
    is_information(plan, j) && j % 5 == i % 5 && row.get(j)
}

// The sum modulo 2 of the information bits below i whose position leaves the remainder of i by 5.
pub fn parity_sum(plan: &Plan, row: &Row, i: usize) -> bool
    ensures { result ≡ parity_sum (kind_at plan.now) (row_bit row.now) i }
{
    (0..i).fold(false, |sum, j| sum ^ summand(plan, row, i, j))
}

// Sets every parity position of the plan to its sum.
pub fn add_parity(plan: &Plan, row: &mut Row)
    ensures { (i : ℕ) → row_bit row.new i ≡ (if is_parity (kind_at plan.now i) then parity_sum (kind_at plan.now) (row_bit row.old) i else row_bit row.old i) }
{
    for i in (0..plan.length()).filter(|i| is_parity(plan, *i)) {
        let sum = parity_sum(plan, row, i);
        row.set(i, sum);
    }
}
