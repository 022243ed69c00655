// What a decoder answers and keeps, as text. Tested, not proved: that it is written, and not what.
use bits::Row;
use decoder::{Decoder, Met, Report};
use outer::Judge;
use replay::Answer;
use std::fmt;
use store::{Candidate, MOST, Store};

// A number that may be absent.
#[derive(Clone, Copy)]
struct Figure(Option<u32>);

impl fmt::Display for Figure {
    fn fmt<W: fmt::Write>(&self, f: &mut fmt::Formatter<W>) -> fmt::Result {
        match self.0 {
            Some(n) => write!(f, "{n}"),
            None => write!(f, "-"),
        }
    }
}

#[derive(Clone, Copy)]
struct Figures(Report);

impl fmt::Display for Figures {
    fn fmt<W: fmt::Write>(&self, f: &mut fmt::Formatter<W>) -> fmt::Result {
        let Report {
            shown,
            floor,
            bound,
            steps,
            failures,
        } = self.0;
        let metric = Figure(shown);
        let floor = Figure(floor);
        let bound = Figure(bound);
        write!(f, "{metric} {floor} {bound} {steps} {failures}")
    }
}

// What an advance met.
#[derive(Clone, Copy)]
struct Outcome(Met);

impl fmt::Display for Outcome {
    fn fmt<W: fmt::Write>(&self, f: &mut fmt::Formatter<W>) -> fmt::Result {
        f.write_str(match self.0 {
            Met::Shown => "shown",
            Met::NoneLeft => "none",
            Met::GivenUp => "quit",
            Met::Paused => "paused",
        })
    }
}

fn digit(bit: bool) -> char {
    if bit { '1' } else { '0' }
}

// What a granted call answers.
#[derive(Clone, Copy)]
pub struct Told<'a>(pub &'a Answer);

impl fmt::Display for Told<'_> {
    fn fmt<W: fmt::Write>(&self, f: &mut fmt::Formatter<W>) -> fmt::Result {
        match self.0 {
            Answer::Reported(report) => write!(f, "report {}", Figures(*report)),
            Answer::Advanced(met, report) => write!(f, "{} {}", Outcome(*met), Figures(*report)),
            Answer::Payload(payload) => {
                write!(f, "payload ")?;
                for bit in payload.as_slice() {
                    f.write_char(digit(*bit != 0))?;
                }
                Ok(())
            }
        }
    }
}

// A candidate with the path in its row.
#[derive(Clone, Copy)]
struct Kept {
    candidate: Candidate,
    path: Row,
}

impl fmt::Display for Kept {
    fn fmt<W: fmt::Write>(&self, f: &mut fmt::Formatter<W>) -> fmt::Result {
        let Candidate {
            metric,
            length,
            serial,
            ..
        } = self.candidate;
        write!(f, "{metric}:{length}:{serial}:")?;
        write_path(f, &self.path, usize::from(length))
    }
}

// The first bits of a row, 64 at a time: to write each by itself costs more than to find it.
fn write_path<W: fmt::Write>(f: &mut fmt::Formatter<W>, path: &Row, length: usize) -> fmt::Result {
    for start in (0..length).step_by(64) {
        let mut digits = [b'0'; 64];
        for (k, digit) in digits.iter_mut().enumerate() {
            if path.get(start.saturating_add(k)) {
                *digit = b'1';
            }
        }
        let part = &digits[..(length - start).min(64)];
        f.write_str(str::from_utf8(part).map_err(|_| fmt::Error)?)?;
    }
    Ok(())
}

// The kept candidates of a decoder in order; they are taken from a copy of its store.
#[derive(Clone, Copy)]
pub struct KeptList<'a, S: Store + Copy, C: Judge>(pub &'a Decoder<S, C>);

impl<S: Store + Copy, C: Judge> fmt::Display for KeptList<'_, S, C> {
    fn fmt<W: fmt::Write>(&self, f: &mut fmt::Formatter<W>) -> fmt::Result {
        write!(f, "kept")?;
        let mut store = *self.0.store();
        // a store hands out no more than it may keep
        for _ in 0..MOST {
            let Some(candidate) = store.take() else {
                break;
            };
            let path = self.0.path(candidate.row);
            write!(f, " {}", Kept { candidate, path })?;
        }
        Ok(())
    }
}
