// Why a line makes no call. Assumes nothing.
use base::Refusal;
use std::fmt;

#[derive(Clone, Copy)]
pub enum NoCall {
    Malformed,
    // a load whose plan is refused
    NoPlan(Refusal),
}

impl From<Refusal> for NoCall {
    fn from(refusal: Refusal) -> NoCall {
        NoCall::NoPlan(refusal)
    }
}

impl fmt::Display for NoCall {
    fn fmt<W: fmt::Write>(&self, f: &mut fmt::Formatter<W>) -> fmt::Result {
        match self {
            NoCall::Malformed => write!(f, "malformed"),
            NoCall::NoPlan(refusal) => write!(f, "fault {refusal}"),
        }
    }
}
