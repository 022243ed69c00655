// Advancing the search. Assumes nothing.
ghost use Rattle.std.specs.Prelude.{◌≡◌, length};
ghost use Rattle.decoder.specs.Answers.{KeptIfRefused, advance_verdict, advanced_to, scratch_after};
ghost use Rattle.decoder.specs.Blocks.{plan_in};
ghost use Rattle.decoder.specs.Phases.{error_of};
ghost use Rattle.decoder.specs.States.{model_of};
ghost use Rattle.plan.specs.Plans.{block_length};
ghost use Rattle.search.specs.Calls as calls;
ghost use Rattle.search.specs.Search as search;
ghost use Rattle.search.specs.Stores.{ruled};

use super::Decoder;
use crate::report::{Met, Report};
use base::{Phased, Refusal};
use outer::Judge;
use store::Store;

const MOST_BUDGET: u32 = 65_536;

impl<S: Store, C: Judge> Decoder<S, C> {
    // Makes at most budget steps, with scratch of at least 2N words to work in.
    pub fn advance(&mut self, budget: u32, scratch: &mut [i32]) -> Result<(Met, Report), Refusal>
        ensures model { model_of S.Store C.Judge self.new.state ≡ (search.called ruled (model_of S.Store C.Judge self.old.state) (calls.Advance budget (length scratch.old))).0 }
        ensures answer { advanced_to (model_of S.Store C.Judge self.new.state) result ≡ (search.called ruled (model_of S.Store C.Judge self.old.state) (calls.Advance budget (length scratch.old))).1 }
        ensures check { self.new.state.check ≡ self.old.state.check }
        ensures scratch { scratch.new ≡ scratch_after result (block_length (plan_in self.old.state.block)) scratch.old }
        ensures refusal { error_of result ≡ advance_verdict self.old.state.phase (block_length (plan_in self.old.state.block)) budget (length scratch.old) }
        ensures refused { KeptIfRefused result self.old self.new }
    {
        self.state.phase.admits(Phased::Advance)?;
        let size = 2 * self.state.block.plan().length();
        if !(1..=MOST_BUDGET).contains(&budget) || scratch.len() < size {
            return Err(Refusal::Budget);
        }
        let met = self.state.search(budget, &mut scratch[0..size]);
        Ok((met, self.state.figures()))
    }
}
