// What is to be sent, and how it is to arrive. Assumes nothing.
mod make;

ghost use Rattle.std.specs.Prelude.{◌<◌, ◌≤◌};

use block::{PlanNumbers, SearchNumbers};

// Why there is no such request.
#[derive(Clone, Copy, PartialEq, Eq, Debug)]
pub enum Unfit {
    // no words are wanted
    Words,
    // not 1 to 4,095
    Magnitude,
}

#[derive(Drop)]
pub struct Request {
    pub plan: PlanNumbers,
    pub search: SearchNumbers,
    // one bit to a byte
    pub payload: Vec<u8>,
    // the size of every received value
    pub magnitude: u16,
    // the sent bits whose sign is turned on the way
    pub flips: Vec<u16>,
    ghost above: { 1 ≤ magnitude },
    ghost within: { magnitude ≤ 4095 },
    ghost wanted: { 0 < search.words },
}
