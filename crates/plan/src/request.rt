// What a plan is asked for. Assumes nothing.
ghost use Rattle.std.specs.Prelude.{◌≡◌};
ghost use Rattle.plan.specs.Requests.{within_limits};

use crate::block_size::BlockSize;

#[derive(Clone, Copy, PartialEq, Eq, Debug)]
pub struct Request {
    // the block length is 2 ^ n
    pub n: u8,
    // A, the length of the payload
    pub payload: u16,
    // E, how many bits are sent
    pub sent: u16,
    // t: positions below it are barred
    pub low: u16,
    // p, how many parity positions
    pub parity: u8,
    // L, the bits that the outer check adds
    pub check_bits: u8,
    // H, the longest payload of the outer check
    pub longest: u16,
}

impl Request {
    // Whether every number is within its limits. N is a shift only once n is known to be small.
    pub fn within_limits(&self) -> bool
        ensures { result ≡ within_limits self.now }
    {
        (self.n >= 5 && self.n <= 10)
            && (self.payload >= 1 && self.payload <= 512 && self.payload <= self.longest)
            && (self.sent >= 1 && self.sent <= 8192)
            && self.low as usize <= BlockSize { n: self.n }.length()
            && (self.parity == 0 || self.parity == 3)
            && self.check_bits <= 24
    }
}
