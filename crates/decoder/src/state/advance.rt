// The looks and the steps of an advance. For the decoder alone: hence the `requires`. Assumes nothing.
ghost use Rattle.std.specs.Prelude.{◌≡◌, ◌*◌, ◌≤◌, true, length, replicate, pos};
ghost use Rattle.cost.specs.Workspace.{soft_in};
ghost use Rattle.decoder.specs.Answers.{halt_of, met_of, shown_path};
ghost use Rattle.decoder.specs.Blocks.{plan_in, soft_of};
ghost use Rattle.decoder.specs.Phases.{is_loaded};
ghost use Rattle.decoder.specs.States.{loaded_of, phase_of, Sound};
ghost use Rattle.decoder.specs.declared.phase.Phase.TheVariants as phase;
ghost use Rattle.plan.specs.Plans.{block_length};
ghost use Rattle.search.specs.Search as search;
ghost use Rattle.search.specs.Stores.{ruled};

use super::State;
use crate::guard::Wiped;
use crate::phase::Phase;
use crate::report::Met;
use cost::Workspace;
use outer::Judge;
use store::Store;

impl<S: Store, C: Judge> State<S, C> {
    // The look before a step: what ends the search, if anything does.
    fn halt(&self) -> Option<Met>
        ensures { halt_of result ≡ search.halt ruled (loaded_of S.Store C.Judge self.now) }
    {
        if self.store.count() == 0 {
            return Some(Met::NoneLeft);
        }
        if self.counts.most_failures <= self.counts.failures
            || self.counts.most_steps <= self.counts.steps
        {
            return Some(Met::GivenUp);
        }
        None
    }

    // Looks and steps, at most budget times.
    fn turns(&mut self, budget: u32, work: &mut Workspace) -> Met
        requires sound { Sound S.Store C.Judge self.old }
        requires searching { self.old.phase ≡ phase.Searching }
        requires work { soft_in work.old ≡ soft_of self.old.block }
        ensures model { loaded_of S.Store C.Judge self.new ≡ (search.advanced ruled budget (loaded_of S.Store C.Judge self.old)).1 }
        ensures met { met_of (shown_path (phase_of self.new)) result ≡ (search.advanced ruled budget (loaded_of S.Store C.Judge self.old)).0 }
        ensures sound { Sound S.Store C.Judge self.new }
        ensures loaded { is_loaded self.new.phase ≡ true }
        ensures check { self.new.check ≡ self.old.check }
    {
        for _ in 0..budget {
            if let Some(met) = self.halt() {
                self.phase = Phase::Ended;
                return met;
            }
            self.step(work);
            if let Phase::Shown(_) = self.phase {
                return Met::Shown;
            }
        }
        match self.halt() {
            Some(met) => {
                self.phase = Phase::Ended;
                met
            }
            None => Met::Paused,
        }
    }

    // Makes at most budget turns, in a workspace over room that is wiped after them.
    pub fn search(&mut self, budget: u32, room: &mut [i32]) -> Met
        requires sound { Sound S.Store C.Judge self.old }
        requires searching { self.old.phase ≡ phase.Searching }
        requires room { 2 * block_length (plan_in self.old.block) ≤ length room.old }
        ensures model { loaded_of S.Store C.Judge self.new ≡ (search.advanced ruled budget (loaded_of S.Store C.Judge self.old)).1 }
        ensures met { met_of (shown_path (phase_of self.new)) result ≡ (search.advanced ruled budget (loaded_of S.Store C.Judge self.old)).0 }
        ensures sound { Sound S.Store C.Judge self.new }
        ensures loaded { is_loaded self.new.phase ≡ true }
        ensures check { self.new.check ≡ self.old.check }
        ensures room { room.new ≡ replicate (length room.old) (pos 0) }
    {
        let room = Wiped(room);
        // A copy, since a step changes the decoder.
        let soft = *self.block.soft();
        let mut work = Workspace::new(&soft, room.0);
        self.turns(budget, &mut work)
    }
}
