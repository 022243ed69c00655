// Why nothing is sent: a layer refuses, or memory fails. Assumes nothing.
ghost use Rattle.std.specs.Prelude.{◌≡◌};
ghost use Rattle.sender.specs.declared.failure.Failure.TheVariants.{Refused, Memory};

use base::Refusal;
use std::alloc::AllocError;

#[derive(Clone, Copy, Debug)]
pub enum Failure {
    Refused(Refusal),
    Memory,
}

// A refusal is passed up whole.
impl From<Refusal> for Failure {
    ghost from_gives = { λ refusal r. r ≡ Refused refusal };

    fn from(refusal: Refusal) -> Failure {
        Failure::Refused(refusal)
    }
}

impl From<AllocError> for Failure {
    ghost from_gives = { λ _ r. r ≡ Memory };

    fn from(_error: AllocError) -> Failure {
        Failure::Memory
    }
}
