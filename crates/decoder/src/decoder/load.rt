// Loading a block. Assumes nothing.
ghost use Rattle.std.specs.Prelude.{◌≡◌, None};
ghost use Rattle.decoder.specs.Answers.{KeptIfRefused, reported, request_of};
ghost use Rattle.decoder.specs.Firsts.{CleanFirst};
ghost use Rattle.decoder.specs.Phases.{error_of};
ghost use Rattle.decoder.specs.States.{model_of};
ghost use Rattle.model.specs.Blocks.{meaning_of};
ghost use Rattle.search.specs.Stores.{ruled};
ghost use Rattle.search.specs.Calls as search;
ghost use Rattle.search.specs.Search.{called};

use super::Decoder;
use crate::limits::Limits;
use crate::report::Report;
use base::Refusal;
use outer::Judge;
use plan::Plan;
use store::Store;

impl<S: Store, C: Judge> Decoder<S, C> {
    // Takes a plan with its soft values, and starts to search from the path of length 0.
    pub fn load(&mut self, plan: &Plan, llrs: &[i32], limits: Limits) -> Result<Report, Refusal>
        ensures model { model_of S.Store C.Judge self.new.state ≡ (called ruled (model_of S.Store C.Judge self.old.state) (search.Load (request_of C.Judge self.old.state.check plan.now llrs.now limits))).0 }
        ensures answer { reported result ≡ (called ruled (model_of S.Store C.Judge self.old.state) (search.Load (request_of C.Judge self.old.state.check plan.now llrs.now limits))).1 }
        ensures check { self.new.state.check ≡ self.old.state.check }
        ensures clean { error_of result ≡ None → CleanFirst plan.now (meaning_of C.Judge self.old.state.check) llrs.now limits (model_of S.Store C.Judge self.new.state) }
        ensures refused { KeptIfRefused result self.old self.new }
    {
        let block = self.state.examined(plan, llrs, limits)?;
        self.state.start(block, limits);
        Ok(self.state.figures())
    }
}
