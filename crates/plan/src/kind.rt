// What a position of a code block carries. Assumes nothing.
ghost use Rattle.std.specs.Prelude.{Some};
ghost use Rattle.plan.specs.Kinds.{kind_name};

use std::fmt;

#[derive(Clone, Copy, PartialEq, Eq, Debug)]
pub enum Kind {
    // always 0
    Frozen,
    // a bit of the finished word
    Information,
    // the sum modulo 2 of earlier information bits
    Parity,
}

// The kind in one word.
impl fmt::Display for Kind {
    ghost output = { λ kind. Some (kind_name kind) };

    fn fmt<W: fmt::Write>(&self, f: &mut fmt::Formatter<W>) -> fmt::Result {
        f.write_str(match self {
            Kind::Frozen => "frozen",
            Kind::Information => "information",
            Kind::Parity => "parity",
        })
    }
}
