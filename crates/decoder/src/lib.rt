//! The decoder: a bounded stack search over any store and any check.
#![tactic(auto)]

mod block;
mod counts;
mod decoder;
mod guard;
mod limits;
mod path;
mod phase;
mod report;
mod rows;
mod state;

pub use decoder::Decoder;
pub use limits::Limits;
pub use report::{Met, Report};
