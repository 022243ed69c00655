// A block that may be searched: a plan, and as many soft values as it has positions. Assumes nothing.
mod calls;

ghost use Rattle.std.specs.Prelude.{◌≡◌};
ghost use Rattle.cost.specs.Block.{size_of};
ghost use Rattle.plan.specs.Plans.{log_length};

use cost::Soft;
use plan::Plan;

#[derive(Clone, Copy, Drop)]
pub struct Block {
    plan: Plan,
    soft: Soft,
    ghost sized: { size_of soft ≡ log_length plan },
}
