//! A store in fixed memory as a binary heap: the first of the kept candidates stands in front.
#![tactic(auto)]

mod binary;
mod sift;

pub use binary::Heap;
