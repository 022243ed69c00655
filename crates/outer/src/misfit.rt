// Why a check writes nothing. Assumes nothing.
ghost use Rattle.std.specs.Prelude.{Some, codes};

use std::error::Error;
use std::fmt;

// The lengths are no payload's and word's of the check.
#[derive(Clone, Copy, PartialEq, Eq, Debug)]
pub struct Misfit;

impl fmt::Display for Misfit {
    ghost output = { λ _. Some (codes "no payload and word of the check have these lengths") };

    fn fmt<W: fmt::Write>(&self, f: &mut fmt::Formatter<W>) -> fmt::Result {
        write!(f, "no payload and word of the check have these lengths")
    }
}

impl Error for Misfit {}
