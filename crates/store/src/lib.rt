//! Candidates of the search, what a store of them is, and a store in fixed memory: a table kept in order.
#![tactic(auto)]

mod candidate;
pub mod laws;
mod minimum;
pub mod slots;
mod store;
mod table;

pub use candidate::Candidate;
pub use minimum::lesser;
pub use store::{BLANK, MOST, Store, held_capacity};
pub use table::Table;
