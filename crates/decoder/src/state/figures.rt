// The figures of a search. Assumes nothing.
ghost use Rattle.std.specs.Prelude.{◌≡◌};
ghost use Rattle.decoder.specs.Answers.{figures_of};
ghost use Rattle.decoder.specs.States.{loaded_of};
ghost use Rattle.search.specs.Stores.{ruled};
ghost use Rattle.search.specs.Search.{report_of};

use super::State;
use crate::phase::Phase;
use crate::report::Report;
use outer::Judge;
use store::{Store, lesser};

impl<S: Store, C: Judge> State<S, C> {
    // The figures, in any phase.
    pub fn figures(&self) -> Report
        ensures { figures_of result ≡ report_of ruled (loaded_of S.Store C.Judge self.now) }
    {
        let shown = match self.phase {
            Phase::Shown(c) => Some(c.metric),
            _ => None,
        };
        let floor = self.store.floor();
        Report {
            shown,
            floor,
            bound: lesser(floor, self.store.first_metric()),
            steps: self.counts.steps,
            failures: self.counts.failures,
        }
    }
}
