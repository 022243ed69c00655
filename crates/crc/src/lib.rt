//! The definitions and the theory of remainders and of the spread order, below the checks that are made of them.
#![tactic(auto)]

mod spread;
mod worked;

pub use spread::Spread;
pub use worked::orders_as_worked;
