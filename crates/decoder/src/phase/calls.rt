// Which calls a phase allows. Assumes nothing.
ghost use Rattle.std.specs.Prelude.{◌≡◌};
ghost use Rattle.decoder.specs.Phases.{error_of, phase_refusal};

use super::Phase;
use base::{Phased, Refusal};

impl Phase {
    pub fn admits(&self, call: Phased) -> Result<(), Refusal>
        ensures { error_of result ≡ phase_refusal self.now call }
    {
        match (*self, call) {
            (Phase::Searching, Phased::Advance) => Ok(()),
            (Phase::Shown(_), Phased::Strike) => Ok(()),
            (Phase::Shown(_), Phased::Word) => Ok(()),
            (Phase::Searching, Phased::Report) => Ok(()),
            (Phase::Shown(_), Phased::Report) => Ok(()),
            (Phase::Ended, Phased::Report) => Ok(()),
            _ => Err(Refusal::WrongPhase(call)),
        }
    }
}
