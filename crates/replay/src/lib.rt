//! Runs of a decoder: any calls of it as values, played from a new one on, with the promise over all of them.
#![tactic(auto)]

mod call;
mod payload;
mod plays;
mod replays;

pub use call::{Answer, Call};
pub use payload::Payload;
pub use plays::play;
pub use replays::replay;
