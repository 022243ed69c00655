// The trailing check: the payload followed by the remainder of its division. Assumes nothing.
ghost use Rattle.std.specs.Prelude.{◌≡◌, ◌+◌, ◌≤◌, false, length, take};
ghost use Rattle.crc.specs.Division.{same_bits};
ghost use Rattle.outer.specs.Trailing.{width, divisor, followed, sound};
ghost use Rattle.outer.specs.Followed.{sound-length, followed-sound, take-followed, sound-followed};
ghost use Rattle.std.proofs.Common.{rules};

use super::check::{Finish, Judge};
use super::division::divide;
use super::lengths::fits;
use super::misfit::Misfit;

const LONGEST: usize = 512;

// the longest word, of 512 payload and 11 check bits
const LONGEST_WORD: usize = 523;

// the divisors' coefficients below the leading one, highest power first
const DIVISOR_6: [bool; 6] = [true, false, false, false, false, true];

const DIVISOR_11: [bool; 11] = [
    true, true, false, false, false, true, false, false, false, false, true,
];

#[derive(Clone, Copy, PartialEq, Eq, Debug)]
pub enum Trailing {
    // 6 check bits, divisor D^6 + D^5 + 1
    Six,
    // 11 check bits, divisor D^11 + D^10 + D^9 + D^5 + 1
    Eleven,
}

impl Trailing {
    fn divisor(self) -> &'static [bool]
        ensures value { result.now ≡ divisor self }
        ensures width { length result.now ≡ width self }
    {
        match self {
            Trailing::Six => &DIVISOR_6,
            Trailing::Eleven => &DIVISOR_11,
        }
    }

    // Writes payload and remainder into a buffer of just that length.
    fn lay(self, payload: &[bool], word: &mut [bool])
        requires room { length word.old ≡ length payload.now + width self }
        ensures { word.new ≡ followed self payload.now }
    {
        let a = payload.len();
        word.fill(false);
        word[0..a].copy_from_slice(payload);
        divide(word, a, self.divisor());
        word[0..a].copy_from_slice(payload);
    }

    // Whether a word is what its own payload is followed up to; that goes into a buffer of the word's length.
    fn repeats(self, a: usize, word: &[bool], again: &mut [bool]) -> bool
        requires room { (length word.now ≡ a + width self) × (length again.old ≡ length word.now) }
        ensures { result ≡ same_bits word.now (followed self (take a word.now)) }
    {
        self.lay(&word[0..a], again);
        let again: &[bool] = again;
        word == again
    }
}

impl Judge for Trailing {
    ghost bits = { width };

    ghost longest = { λ _. 512 };

    ghost accepted = { sound };

    ghost hopeless = { λ _ _ _. false };

    ghost watchful = { λ _. false };

    ghost carried = { λ _ a w. take a w };

    ghost few = { Prim.search rules };

    ghost accepted_length = { λ c a w h. sound-length c a w h };

    ghost accepted_hopeful = { Prim.search rules };

    ghost unwatchful_hopeful = { Prim.search rules };

    ghost carried_length = { Prim.search rules };

    fn check_bits(&self) -> usize {
        match *self {
            Trailing::Six => 6,
            Trailing::Eleven => 11,
        }
    }

    fn longest_payload(&self) -> usize {
        LONGEST
    }

    fn accepts(&self, a: usize, word: &[bool]) -> bool {
        if fits(LONGEST, self.check_bits(), a, word.len()).is_err() {
            return false;
        }
        let mut again = [false; LONGEST_WORD];
        self.repeats(a, word, &mut again[0..word.len()])
    }

    fn watches(&self) -> bool {
        false
    }

    fn is_hopeless(&self, _a: usize, _beginning: &[bool]) -> bool {
        false
    }

    fn read(&self, word: &[bool], payload: &mut [bool]) -> Result<(), Misfit> {
        let a = payload.len();
        fits(LONGEST, self.check_bits(), a, word.len())?;
        payload.copy_from_slice(&word[0..a]);
        Ok(())
    }
}

impl Finish for Trailing {
    ghost finished = { followed };

    ghost finished_accepted = { λ c p h. followed-sound c p h };

    ghost finished_reads_back = { λ c p h. take-followed c p };

    ghost accepted_finished = { λ c a w h. sound-followed c a w h };

    fn finish(&self, payload: &[bool], word: &mut [bool]) -> Result<(), Misfit> {
        let a = payload.len();
        fits(LONGEST, self.check_bits(), a, word.len())?;
        self.lay(payload, word);
        Ok(())
    }
}
