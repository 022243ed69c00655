//! What every layer of the codec shares: the refusals, and the lemmas that more than one crate uses.
#![tactic(auto)]

mod refusal;

pub use refusal::{Layer, Phased, Refusal};
