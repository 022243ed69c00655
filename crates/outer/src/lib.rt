//! The outer checks of a payload: what a check is, and the kinds none, trailing and spread.
#![tactic(auto)]

mod bits;
mod check;
mod division;
mod examples;
mod layout;
mod lengths;
mod misfit;
mod none;
mod pattern;
mod spread;
mod trailing;

pub use check::{Finish, Judge};
pub use crc::Spread;
pub use examples::checks_as_worked;
pub use misfit::Misfit;
pub use none::NoCheck;
pub use trailing::Trailing;

#[cfg(test)]
mod tests;
