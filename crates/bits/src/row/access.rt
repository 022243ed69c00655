// Reading and writing single bits of a row. Assumes nothing.
ghost use Rattle.std.specs.Prelude.{◌≡◌, ℕ, ◌≤◌, false};
ghost use Rattle.bits.specs.Row.{row_bit, set_bit};

use super::{BITS, Row};
use crate::word;

impl Row {
    pub fn zero() -> Row
        ensures { (k : ℕ) → row_bit result k ≡ false }
    {
        Row { words: [0; 16] }
    }

    // Makes every bit false.
    pub fn clear(&mut self)
        ensures { (k : ℕ) → row_bit self.new k ≡ false }
    {
        *self = Row::zero();
    }

    pub fn get(&self, k: usize) -> bool
        ensures result { result ≡ row_bit self.now k }
        ensures beyond { 1024 ≤ k → result ≡ false }
    {
        if k < BITS {
            word::bit(self.words[k / 64], k % 64)
        } else {
            false
        }
    }

    // Sets bit k; beyond the row nothing is written.
    pub fn set(&mut self, k: usize, value: bool)
        ensures { (j : ℕ) → row_bit self.new j ≡ set_bit (row_bit self.old) k value j }
    {
        if k < BITS {
            self.words[k / 64] = word::with_bit(self.words[k / 64], k % 64, value);
        }
    }
}
