// The laid word: bits before the transform, lawful under the plan that they belong to. Assumes nothing.
mod bytes;
mod lay;
mod positions;

ghost use Rattle.std.specs.Prelude.{◌≡◌, ℕ, ◌≤◌, false};
ghost use Rattle.bits.specs.Row.{row_bit};
ghost use Rattle.plan.specs.Plans.{kind_at, block_length};
ghost use Rattle.code.specs.Lawful.{FrozenZero, ParitySummed};

use bits::Row;
use plan::Plan;
pub use positions::parity_sum;

// A word for one plan, fresh or with a payload laid in it. It cannot be copied: the transform uses it up.
#[derive(Drop)]
pub struct Laid {
    pub(crate) plan: Plan,
    pub(crate) bits: Row,
    ghost frozen: { FrozenZero (kind_at plan) (block_length plan) (row_bit bits) },
    ghost parity: { ParitySummed (kind_at plan) (block_length plan) (row_bit bits) },
    ghost beyond: { (i : ℕ) → block_length plan ≤ i → row_bit bits i ≡ false },
}
