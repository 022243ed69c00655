// The layout of a spread word for payloads of one length: judging, finishing and reading along its bits. Assumes nothing.
ghost use Rattle.std.specs.Prelude.{◌≡◌, ℕ, ◌+◌, ◌-◌, ◌≤◌, false, ◌&&◌, ◌++◌, length, IfOk, is_ok, nat_le, slice_index_or};
ghost use Rattle.std.specs.Bool.{xor};
ghost use Rattle.base.specs.Bits.{bit_of};
ghost use Rattle.crc.specs.Division.{remainder};
ghost use Rattle.crc.specs.Lengths.{fitting};
ghost use Rattle.crc.specs.Spread.{width, longest, divisor, order, enters_at, interleaved, deinterleaved, broken};
ghost use Rattle.outer.specs.Order.{left};

use super::bits::Bits;
use super::lengths::fits;
use super::misfit::Misfit;
use super::pattern::{longest_of, order_of, rows_of, width_of};
use crc::Spread;

// Bits of the word are named by their index into the payload and the check bits after it.
// Sums have check bit j at 2^j. Payload and word are handed to each call and not held: finishing lends them one way,
// reading the other.
#[derive(Clone, Copy)]
pub struct Layout {
    kind: Spread,
    payload_bits: usize,
    ghost taken: { payload_bits ≤ longest kind },
}

impl Layout {
    pub fn new(kind: Spread, payload_bits: usize) -> Layout
        requires { payload_bits ≤ longest kind }
        ensures kind { result.kind ≡ kind }
        ensures payload { result.payload_bits ≡ payload_bits }
    {
        Layout { kind, payload_bits }
    }

    // The layout of a word of that many bits.
    pub fn of_word(kind: Spread, payload_bits: usize, word_bits: usize) -> Result<Layout, Misfit>
        ensures result { is_ok result ≡ fitting (longest kind) (width kind) payload_bits word_bits }
        ensures ok { IfOk result (λ l. (l.kind ≡ kind) × (l.payload_bits ≡ payload_bits)) }
    {
        fits(longest_of(kind), width_of(kind), payload_bits, word_bits)?;
        Ok(Layout::new(kind, payload_bits))
    }

    // Judges a beginning bit by bit: what enters a check bit has come before it.
    pub fn breaks(self, beginning: &[bool]) -> bool
        ensures { result ≡ broken self.kind self.payload_bits beginning.now }
    {
        let mut sums = 0;
        // The beginning first: behind its end no bit of the order is looked for.
        for (value, bit) in beginning.iter().zip(self.bits()) {
            if self.disagrees(sums, bit, *value) {
                return true;
            }
            sums = self.entered(sums, bit, *value);
        }
        false
    }

    pub fn interleave(self, payload: &[bool], word: &mut [bool])
        requires payload { length payload.now ≡ self.payload_bits }
        requires word { length word.old ≡ self.payload_bits + width self.kind }
        ensures { word.new ≡ interleaved self.kind payload.now }
    {
        let sums = self.check_bits(payload);
        // by place: behind a zip with iter_mut a proof loses what is written
        for (place, bit) in self.bits().enumerate() {
            word[place] = self.value_of(payload, sums, bit);
        }
    }

    pub fn deinterleave(self, word: &[bool], payload: &mut [bool])
        requires payload { length payload.old ≡ self.payload_bits }
        requires word { length word.now ≡ self.payload_bits + width self.kind }
        ensures { payload.new ≡ deinterleaved self.kind self.payload_bits word.now }
    {
        for (bit, value) in self.bits().zip(word) {
            if bit < payload.len() {
                payload[bit] = *value;
            }
        }
    }

    fn struck(self) -> usize
        ensures { result ≡ longest self.kind - self.payload_bits }
    {
        longest_of(self.kind) - self.payload_bits
    }

    // The bits of the word in their order.
    fn bits(self) -> Bits
        ensures { left result ≡ order self.kind self.payload_bits }
    {
        Bits {
            order: order_of(self.kind),
            struck: self.struck(),
        }
    }

    // The sums once a bit of the word is known too: a check bit enters none.
    fn entered(self, sums: u32, bit: usize, value: bool) -> u32
        ensures { (j : ℕ) → bit_of result j ≡ xor (bit_of sums j) (enters_at self.kind self.payload_bits j bit && value) }
    {
        if value && bit < self.payload_bits {
            sums ^ rows_of(self.kind)[self.struck() + bit]
        } else {
            sums
        }
    }

    // Whether a bit of the word is a check bit that is not the sum of what enters it.
    fn disagrees(self, sums: u32, bit: usize, value: bool) -> bool
        ensures { result ≡ (nat_le self.payload_bits bit && xor value (bit_of sums (bit - self.payload_bits))) }
    {
        bit >= self.payload_bits && value ^ odd(sums, bit - self.payload_bits)
    }

    // The check bits of a payload.
    fn check_bits(self, payload: &[bool]) -> u32
        requires { length payload.now ≡ self.payload_bits }
        ensures { (j : ℕ) → bit_of result j ≡ slice_index_or (remainder (divisor self.kind) payload.now) j false }
    {
        let mut sums = 0;
        for (i, bit) in payload.iter().enumerate() {
            sums = self.entered(sums, i, *bit);
        }
        sums
    }

    // A bit of the finished word, where sums are the check bits of the payload.
    fn value_of(self, payload: &[bool], sums: u32, bit: usize) -> bool
        requires payload { length payload.now ≡ self.payload_bits }
        requires sums { (j : ℕ) → bit_of sums j ≡ slice_index_or (remainder (divisor self.kind) payload.now) j false }
        ensures { result ≡ slice_index_or (payload.now ++ remainder (divisor self.kind) payload.now) bit false }
    {
        if bit < self.payload_bits {
            payload[bit]
        } else {
            odd(sums, bit - self.payload_bits)
        }
    }
}

// Whether check bit j is in the sums.
fn odd(sums: u32, j: usize) -> bool
    ensures { result ≡ bit_of sums j }
{
    j < 32 && (sums >> j) & 1 == 1
}
