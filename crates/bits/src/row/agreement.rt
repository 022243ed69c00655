// Whether two rows begin alike. Assumes nothing.
ghost use Rattle.std.specs.Prelude.{◌≡◌, min};
ghost use Rattle.bits.specs.Row.{row_bit, same_bits};

use super::{BITS, Row};
use crate::words;

impl Row {
    // Whether the first len bits of both are the same; a row has no more than 1,024.
    pub fn agrees(&self, other: &Row, len: usize) -> bool
        ensures { result ≡ same_bits (row_bit self.now) (row_bit other.now) (min len 1024) }
    {
        words::agree(&self.words, &other.words, len.min(BITS))
    }
}
