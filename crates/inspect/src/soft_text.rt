// Soft values by place as text. Tested, not proved: that it is written, and not what.
use crate::soft::{SoftFault, SoftSheet};
use crate::words::write_fault;
use plan::{Mode, Plan};
use std::fmt;

impl fmt::Display for SoftSheet {
    fn fmt<W: fmt::Write>(&self, f: &mut fmt::Formatter<W>) -> fmt::Result {
        write_places(f, &self.plan, &self.llrs)
    }
}

// Nothing where the file or its plan is refused: the checklist has told it.
impl fmt::Display for SoftFault {
    fn fmt<W: fmt::Write>(&self, f: &mut fmt::Formatter<W>) -> fmt::Result {
        match *self {
            SoftFault::Untold(_) => Ok(()),
            SoftFault::BadValue(fault) => write_fault(f, fault),
        }
    }
}

// Line C, and a line for every eight places.
fn write_places<W: fmt::Write>(
    f: &mut fmt::Formatter<W>,
    plan: &Plan,
    llrs: &[i32],
) -> fmt::Result {
    writeln!(f, "C soft values by place{}", unsent_words(plan.mode()))?;
    for (i, llr) in llrs.iter().take(plan.length()).enumerate() {
        write_lead(f, i)?;
        write_soft(f, plan, i, *llr)?;
    }
    writeln!(f, "")
}

// What the words at unsent places mean.
fn unsent_words(mode: Mode) -> &'static str {
    match mode {
        Mode::Repeat => "",
        Mode::Puncture => "; unheard: punctured, nothing was heard",
        Mode::Shorten => "; known: shortened, surely 0",
    }
}

// A new line before every eighth place, but for the first.
fn write_lead<W: fmt::Write>(f: &mut fmt::Formatter<W>, i: usize) -> fmt::Result {
    if i % 8 > 0 {
        return Ok(());
    }
    if i > 0 {
        writeln!(f, "")?;
    }
    write!(f, "  {i}:")
}

fn write_soft<W: fmt::Write>(
    f: &mut fmt::Formatter<W>,
    plan: &Plan,
    i: usize,
    llr: i32,
) -> fmt::Result {
    if plan.is_sent(i) {
        write!(f, " {llr}")
    } else {
        write_unsent(f, plan.mode())
    }
}

fn write_unsent<W: fmt::Write>(f: &mut fmt::Formatter<W>, mode: Mode) -> fmt::Result {
    match mode {
        Mode::Shorten => write!(f, " known"),
        Mode::Repeat | Mode::Puncture => write!(f, " unheard"),
    }
}
