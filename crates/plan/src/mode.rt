// How a code block of N bits becomes E sent bits. Assumes nothing.
ghost use Rattle.std.specs.Prelude.{Some};
ghost use Rattle.plan.specs.Order.{mode_name};

use std::fmt;

#[derive(Clone, Copy, PartialEq, Eq, Debug)]
pub enum Mode {
    // E is at least N: every place is sent, some again
    Repeat,
    // the first N - E places of the order are left out
    Puncture,
    // the last N - E places of the order are left out
    Shorten,
}

// The mode in one word.
impl fmt::Display for Mode {
    ghost output = { λ mode. Some (mode_name mode) };

    fn fmt<W: fmt::Write>(&self, f: &mut fmt::Formatter<W>) -> fmt::Result {
        f.write_str(match self {
            Mode::Repeat => "repeat",
            Mode::Puncture => "puncture",
            Mode::Shorten => "shorten",
        })
    }
}
