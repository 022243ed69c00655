// The parts of a load. For the decoder alone: hence the `requires`. Assumes nothing.
ghost use Rattle.std.specs.Prelude.{◌≡◌, true, ◌&&◌, length, ◌==◌};
ghost use Rattle.decoder.specs.Answers.{Examined, fits_check, request_of, started_with};
ghost use Rattle.decoder.specs.Limits.{limits_allowed};
ghost use Rattle.decoder.specs.States.{model_of, Coherent};
ghost use Rattle.model.specs.Blocks.{meaning_of};
ghost use Rattle.plan.specs.Plans.{block_length};
ghost use Rattle.search.specs.Calls as search;

use super::State;
use crate::block::Block;
use crate::counts::Counts;
use crate::limits::Limits;
use crate::phase::Phase;
use base::Refusal;
use cost::first_beyond;
use outer::Judge;
use plan::Plan;
use store::{BLANK, Store};

impl<S: Store, C: Judge> State<S, C> {
    // Whether a block and limits may be loaded, the range of its soft values aside.
    fn may_load(&self, plan: &Plan, llrs: &[i32], limits: Limits) -> bool
        ensures { result ≡ ((fits_check (C.bits self.now.check) (C.longest self.now.check) plan.now && length llrs.now == block_length plan.now) && limits_allowed limits) }
    {
        plan.check_bits() == self.check.check_bits()
            && plan.payload_bits() <= self.check.longest_payload()
            && llrs.len() == plan.length()
            && limits.allowed()
    }

    // The block that may be loaded, or why none.
    pub fn examined(&self, plan: &Plan, llrs: &[i32], limits: Limits) -> Result<Block, Refusal>
        ensures { Examined (request_of C.Judge self.now.check plan.now llrs.now limits) (meaning_of C.Judge self.now.check) limits result }
    {
        if !self.may_load(plan, llrs, limits) {
            return Err(Refusal::Block { at: 0 });
        }
        Block::new(plan, llrs).ok_or_else(|| Refusal::Block {
            at: first_beyond(llrs).unwrap_or(0),
        })
    }

    // Makes the path of length 0 the only one that is kept.
    pub fn start(&mut self, block: Block, limits: Limits)
        requires limits { limits_allowed limits ≡ true }
        ensures model { model_of S.Store C.Judge self.new ≡ search.Busy (started_with block (meaning_of C.Judge self.old.check) limits) }
        ensures coherent { Coherent S.Store C.Judge self.new }
        ensures check { self.new.check ≡ self.old.check }
    {
        self.store.empty(limits.capacity);
        self.store.put(BLANK);
        self.block = block;
        self.counts = Counts {
            most_failures: limits.failures,
            most_steps: limits.steps,
            serial: 1,
            steps: 0,
            failures: 0,
        };
        self.phase = Phase::Searching;
    }
}
