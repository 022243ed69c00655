// The kinds of spread checks. Assumes nothing.
#[derive(Clone, Copy, PartialEq, Eq, Debug)]
pub enum Spread {
    // 4 check bits, divisor D^4 + D^2 + 1, up to 8 payload bits
    Four,
    // 24 check bits, the divisor of CRC24C in 3GPP TS 38.212, up to 140 payload bits
    TwentyFour,
}
