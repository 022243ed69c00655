//! The plan of a code block: its rate matching, and the kind of every position.
#![tactic(auto)]

mod block_size;
mod choice;
mod kind;
mod laws;
mod matching;
mod mode;
mod plan;
mod quota;
mod reliability;
mod request;
#[cfg(test)]
mod tests;

pub use kind::Kind;
pub use laws::{
    fixed_points, kinds_counted, order_permutes, plans_lawful, reliability_total, supersets_later,
    unsent_places,
};
pub use mode::Mode;
pub use plan::Plan;
pub use request::Request;
