//! The calls of a store as values, and the tests that both stores pass.
#![tactic(auto)]

mod call;
mod plays;
#[cfg(test)]
mod tests;

pub use call::{Answer, Call};
pub use plays::play;
