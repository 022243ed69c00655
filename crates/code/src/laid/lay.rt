// Laying a payload in a word. Assumes nothing.
ghost use Rattle.std.specs.Prelude.{◌≡◌, ℕ, true, length};
ghost use Rattle.plan.specs.Plans.{kind_at, payload_bits, word_bits};
ghost use Rattle.bits.specs.Row.{row_bit};
ghost use Rattle.code.specs.Laying.{Fresh, Lays, fits_check, laid_bit, bits_of, laid_at};

use crate::laid::Laid;
use crate::laid::bytes::{first_above_one, read_bits};
use crate::laid::positions::{add_parity, place_word};
use base::Refusal;
use bits::Row;
use outer::Finish;
use plan::Plan;

// A and K at most
const LONGEST_PAYLOAD: usize = 512;

const LONGEST_WORD: usize = 536;

// Whether a plan is one for the check.
fn fits<C: Finish>(plan: &Plan, check: &C) -> bool
    ensures { result ≡ fits_check plan.now (C.Judge.bits check.now) (C.Judge.longest check.now) }
{
    plan.check_bits() == check.check_bits() && plan.payload_bits() <= check.longest_payload()
}

// The row of a finished word under a plan.
fn laid_row(plan: &Plan, word: &[bool]) -> Row
    requires whole { length word.now ≡ word_bits plan.now }
    ensures { (i : ℕ) → row_bit result i ≡ laid_bit (kind_at plan.now) word.now i }
{
    let mut row = place_word(plan, word);
    add_parity(plan, &mut row);
    row
}

// The row of a payload that fits, finished by the check.
fn finished_row<C: Finish>(plan: &Plan, check: &C, payload: &[u8]) -> Row
    requires fits { fits_check plan.now (C.Judge.bits check.now) (C.Judge.longest check.now) ≡ true }
    requires whole { length payload.now ≡ payload_bits plan.now }
    ensures { (i : ℕ) → row_bit result i ≡ laid_bit (kind_at plan.now) (C.Finish.finished check.now (bits_of payload.now)) i }
{
    let mut bits = [false; LONGEST_PAYLOAD];
    let bits = &mut bits[0..payload.len()];
    read_bits(payload, bits);
    let mut word = [false; LONGEST_WORD];
    let word = &mut word[0..plan.word_bits()];
    let _ = check.finish(bits, word);
    laid_row(plan, word)
}

impl Laid {
    // The all-zero word of a plan.
    pub fn fresh(plan: &Plan) -> Laid
        ensures { Fresh plan.now result }
    {
        Laid {
            plan: *plan,
            bits: Row::zero(),
        }
    }

    // The bit at position i; beyond the block it is 0.
    pub fn bit(&self, i: usize) -> bool
        ensures { result ≡ laid_at self.now i }
    {
        self.bits.get(i)
    }

    // Lays a payload over whatever the word holds, or refuses and leaves the word as it was.
    pub fn lay<C: Finish>(&mut self, check: &C, payload: &[u8]) -> Result<(), Refusal>
        ensures { Lays (C.Finish.finished check.now) (C.Judge.bits check.now) (C.Judge.longest check.now) payload.now self.old result self.new }
    {
        if !fits(&self.plan, check) || payload.len() != self.plan.payload_bits() {
            return Err(Refusal::Payload { at: 0 });
        }
        if let Some(at) = first_above_one(payload) {
            return Err(Refusal::Payload { at });
        }
        let bits = finished_row(&self.plan, check, payload);
        *self = Laid {
            plan: self.plan,
            bits,
        };
        Ok(())
    }
}
