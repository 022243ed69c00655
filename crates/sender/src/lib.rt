//! What a sender does: from a request to its sent bits, and to the block file that a receiver sees of them.
#![tactic(auto)]

mod arrival;
mod failure;
mod file;
mod image;
mod request;
mod sending;

pub use failure::Failure;
pub use file::file_of;
pub use request::{Request, Unfit};
pub use sending::{Sending, send};
