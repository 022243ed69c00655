// Why a byte is no code. Assumes nothing.
ghost use Rattle.std.specs.Prelude.{Some};
ghost use Rattle.block.specs.Codes.{unlisted_text};

use std::error::Error;
use std::fmt;

// A byte that names no check, or no store.
#[derive(Clone, Copy, PartialEq, Eq, Debug)]
pub struct Unlisted(pub u8);

impl fmt::Display for Unlisted {
    ghost output = { λ e. Some (unlisted_text e) };

    fn fmt<W: fmt::Write>(&self, f: &mut fmt::Formatter<W>) -> fmt::Result {
        write!(f, "code {} is not listed", self.0)
    }
}

impl Error for Unlisted {}
