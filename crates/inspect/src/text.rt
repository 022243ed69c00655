// The checklist as text. But for the text of a `SoftCount`, line A by itself, it is tested, not proved: that it is written, and not what.
ghost use Rattle.std.specs.Prelude.{Some};
ghost use Rattle.inspect.specs.Sheets.{soft_text};

use crate::sheet::{BadSheet, Sheet, SoftCount};
use crate::words::write_fault;
use block::{PlanNumbers, SearchNumbers};
use plan::{Kind, Mode, Plan};
use std::fmt;

impl fmt::Display for Sheet {
    fn fmt<W: fmt::Write>(&self, f: &mut fmt::Formatter<W>) -> fmt::Result {
        write_numbers(f, &self.numbers)?;
        write_limits(f, &self.limits)?;
        write!(f, "{}", self.soft)?;
        write_plan(f, &self.plan)
    }
}

impl fmt::Display for BadSheet {
    fn fmt<W: fmt::Write>(&self, f: &mut fmt::Formatter<W>) -> fmt::Result {
        match *self {
            BadSheet::File { fault, soft } => {
                write_fault(f, fault)?;
                match soft {
                    Some(count) => write!(f, "{count}"),
                    None => Ok(()),
                }
            }
            BadSheet::Plan {
                fault,
                numbers,
                soft,
            } => {
                write_fault(f, fault)?;
                write_numbers(f, &numbers)?;
                write!(f, "{soft}")
            }
        }
    }
}

// Line A, under the place where the values stand.
impl fmt::Display for SoftCount {
    ghost output = { λ count. Some (soft_text count) };

    fn fmt<W: fmt::Write>(&self, f: &mut fmt::Formatter<W>) -> fmt::Result {
        let SoftCount { present, granted } = *self;
        let verdict = if present == granted {
            "as granted"
        } else {
            "NOT as granted"
        };
        writeln!(
            f,
            "field values at 24\nA soft values: {present} present, {granted} granted: {verdict}"
        )
    }
}

fn write_numbers<W: fmt::Write>(f: &mut fmt::Formatter<W>, p: &PlanNumbers) -> fmt::Result {
    let PlanNumbers {
        n,
        payload,
        sent,
        low,
        parity,
        check,
    } = *p;
    writeln!(
        f,
        "field plan at 0: n {n}, A {payload}, E {sent}, t {low}, p {parity}, check {check}"
    )
}

fn write_limits<W: fmt::Write>(f: &mut fmt::Formatter<W>, s: &SearchNumbers) -> fmt::Result {
    let SearchNumbers {
        capacity,
        store,
        failures,
        steps,
        words,
    } = *s;
    writeln!(
        f,
        "field search at 12: S {capacity}, store {store}, C {failures}, T {steps}, words wanted {words}"
    )
}

// Line B.
fn write_plan<W: fmt::Write>(f: &mut fmt::Formatter<W>, plan: &Plan) -> fmt::Result {
    write_sizes(f, plan)?;
    let length = plan.length();
    write_chosen(f, "information positions", length, |i| {
        plan.kind(i) == Kind::Information
    })?;
    write_chosen(f, "parity positions", length, |i| {
        plan.kind(i) == Kind::Parity
    })?;
    write_chosen(f, "unsent places", length, |i| !plan.is_sent(i))
}

fn write_sizes<W: fmt::Write>(f: &mut fmt::Formatter<W>, plan: &Plan) -> fmt::Result {
    let mode = plan.mode();
    let length = plan.length();
    let word = plan.word_bits();
    writeln!(f, "B plan: mode {mode}, N {length}, K {word}")
}

// The indices below a length that a test picks, ascending, on a line of their own.
fn write_chosen<W: fmt::Write, P: Fn(usize) -> bool>(
    f: &mut fmt::Formatter<W>,
    name: &str,
    length: usize,
    picks: P,
) -> fmt::Result
    requires { P.IsAlwaysCallable picks }
{
    write!(f, "  {name}:")?;
    let mut chosen = (0..length).filter(|i| picks(*i)).peekable();
    if chosen.peek().is_none() {
        return writeln!(f, " none");
    }
    for i in chosen {
        write!(f, " {i}")?;
    }
    writeln!(f, "")
}
