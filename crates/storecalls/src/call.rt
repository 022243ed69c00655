// A call of a store, and what it answers. Assumes nothing.
ghost use Rattle.std.specs.Prelude.{Some};
ghost use Rattle.storecalls.specs.Texts.{answer_text};

use std::fmt;
use store::Candidate;

#[derive(Clone, Copy, PartialEq, Eq, Debug)]
pub enum Call {
    Empty(usize),
    Put(Candidate),
    Take,
    Count,
    Capacity,
    FirstMetric,
    Floor,
    HoldsRow(u8),
}

#[derive(Clone, Copy, PartialEq, Eq, Debug)]
pub enum Answer {
    // of a call that answers nothing: empty and put
    Done,
    // of take; absent where nothing was kept
    Taken(Option<Candidate>),
    // of count and capacity
    Number(usize),
    // of first metric and floor
    Metric(Option<u32>),
    // of the question for a row
    Held(bool),
}

impl fmt::Display for Answer {
    ghost output = { λ answer. Some (answer_text answer) };

    fn fmt<W: fmt::Write>(&self, f: &mut fmt::Formatter<W>) -> fmt::Result {
        match self {
            Answer::Done => f.write_str("done"),
            Answer::Taken(None) => f.write_str("empty"),
            Answer::Taken(Some(c)) => write!(f, "{c}"),
            Answer::Number(n) => write!(f, "{n}"),
            Answer::Metric(None) => f.write_str("-"),
            Answer::Metric(Some(m)) => write!(f, "{m}"),
            Answer::Held(true) => f.write_str("yes"),
            Answer::Held(false) => f.write_str("no"),
        }
    }
}
