//! The encoder's two kinds of word, and the recovery of soft values from received ones.
#![tactic(auto)]

mod coded;
mod laid;
mod laws;
mod recovery;
#[cfg(test)]
mod tests;

pub use coded::Coded;
pub use laid::{Laid, parity_sum};
pub use laws::{clean_speaks, laid_lawful, soft_bounded};
pub use recovery::recover;
