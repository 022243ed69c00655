// Making a block, and reading it. Assumes nothing.
ghost use Rattle.std.specs.Prelude.{◌≡◌, ℕ, true, false, pos, MatchOption, slice_index_or};
ghost use Rattle.cost.specs.Limits.{is_loadable};
ghost use Rattle.decoder.specs.Blocks.{plan_in, llr_in, soft_of};
ghost use Rattle.plan.specs.Plans.{log_length};

use super::Block;
use cost::Soft;
use plan::Plan;

impl Block {
    // The block of a decoder that never was loaded.
    pub fn blank() -> Block {
        match Soft::new(5, &[0; 32]) {
            Some(soft) => Block {
                plan: Plan::builtin(),
                soft,
            },
            None => unreachable(),
        }
    }

    // The plan with its soft values, where they are as many as its positions and within limits.
    pub fn new(plan: &Plan, llrs: &[i32]) -> Option<Block>
        ensures { MatchOption result (is_loadable (log_length plan.now) llrs.now ≡ false) (λ block. (is_loadable (log_length plan.now) llrs.now ≡ true) × (plan_in block ≡ plan.now) × ((k : ℕ) → llr_in block k ≡ slice_index_or llrs.now k (pos 0))) }
    {
        let soft = Soft::new(plan.log_length() as usize, llrs)?;
        Some(Block { plan: *plan, soft })
    }

    pub fn plan(&self) -> &Plan
        ensures { result.now ≡ plan_in self.now }
    {
        &self.plan
    }

    pub fn soft(&self) -> &Soft
        ensures { result.now ≡ soft_of self.now }
    {
        &self.soft
    }
}
