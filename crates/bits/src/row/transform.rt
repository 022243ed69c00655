// The polar transform of an aligned block of a row, in place. Assumes nothing.
ghost use Rattle.std.specs.Prelude.{◌≡◌, ℕ, ◌+◌, ◌^◌, ◌<◌, ◌≤◌, true, false, ◌⊎◌};
ghost use Rattle.base.specs.Transform.{code_bit};
ghost use Rattle.bits.specs.Row.{is_aligned_block, row_bit};

use super::{BITS, Row};
use crate::{word, words};

fn is_block(base: usize, n: usize) -> bool
    ensures { result ≡ is_aligned_block base n }
{
    n <= 10 && base < BITS && base % (1 << n) == 0
}

impl Row {
    // Transforms the 2^n bits from base on, and no others; where they are no aligned block of the row, nothing changes.
    pub fn transform_block(&mut self, base: usize, n: usize)
        ensures inside { is_aligned_block base n ≡ true → (i : ℕ) → i < 2 ^ n → row_bit self.new (base + i) ≡ code_bit n (λ k. row_bit self.old (base + k)) i }
        ensures outside { (k : ℕ) → (k < base) ⊎ (base + 2 ^ n ≤ k) → row_bit self.new k ≡ row_bit self.old k }
        ensures refused { is_aligned_block base n ≡ false → self.new ≡ self.old }
    {
        if !is_block(base, n) {
            return;
        }
        let first = base / 64;
        if n < 6 {
            self.words[first] = word::transform_block(self.words[first], base % 64, n);
        } else {
            words::transform(&mut self.words[first..first + (1 << (n - 6))], n - 6);
        }
    }

    // Transforms the first 2^n bits; where n is above 10, nothing changes.
    pub fn transform(&mut self, n: usize)
        ensures inside { n ≤ 10 → (i : ℕ) → i < 2 ^ n → row_bit self.new i ≡ code_bit n (row_bit self.old) i }
        ensures outside { (k : ℕ) → 2 ^ n ≤ k → row_bit self.new k ≡ row_bit self.old k }
        ensures refused { 10 < n → self.new ≡ self.old }
    {
        self.transform_block(0, n);
    }
}
