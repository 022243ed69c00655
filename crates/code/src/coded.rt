// The coded word: bits after the transform, with the plan that they belong to. Assumes nothing.
mod send;

use bits::Row;
use plan::Plan;

// A word to be sent. It cannot be copied, and there is no way back to a laid word.
#[derive(Drop)]
pub struct Coded {
    plan: Plan,
    bits: Row,
}
