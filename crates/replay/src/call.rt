// The calls of a decoder as values, and what they answer. Assumes nothing.
use crate::payload::Payload;
use decoder::{Limits, Met, Report};
use plan::Plan;

// A call with its arguments. It names parts of what the player is lent: of the soft values by where they begin and how
// many they are, of scratch and output by how many words and bytes.
#[derive(Clone, Copy)]
pub enum Call {
    Report,
    Strike,
    Load {
        plan: Plan,
        at: usize,
        count: usize,
        limits: Limits,
    },
    Advance {
        budget: u32,
        scratch: usize,
    },
    Word {
        output: usize,
    },
}

// What a call answers that is granted.
#[derive(Clone, Copy)]
pub enum Answer {
    // of load, strike and report
    Reported(Report),
    // of advance
    Advanced(Met, Report),
    // of word
    Payload(Payload),
}
