// A payload in fixed memory, so that no call wants memory of its own. Assumes nothing.
ghost use Rattle.std.specs.Prelude.{◌≡◌};

const LONGEST: usize = 512;

// A byte for each bit; beyond its length every byte is 0.
#[derive(Clone, Copy)]
pub struct Payload {
    bits: [u8; 512],
    len: usize,
}

impl Payload {
    ghost use Rattle.replay.specs.Plays.{bytes_in, held};

    // The bytes, as many as fit.
    pub fn new(bytes: &[u8]) -> Payload
        ensures { result ≡ held bytes.now }
    {
        let len = bytes.len().min(LONGEST);
        let mut bits = [0; 512];
        bits[0..len].copy_from_slice(&bytes[0..len]);
        Payload { bits, len }
    }

    pub fn as_slice(&self) -> &[u8]
        ensures { result.now ≡ bytes_in self.now }
    {
        &self.bits[0..self.len.min(LONGEST)]
    }
}
