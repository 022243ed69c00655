// No check: every word of at most 512 bits is its own payload. Assumes nothing.
ghost use Rattle.std.specs.Prelude.{◌≤◌, false, length, take};
ghost use Rattle.crc.specs.Lengths.{fitting};
ghost use Rattle.std.proofs.Common.{rules, arith};
ghost use Rattle.std.proofs.lemmas.List.{take_all};
ghost use Rattle.std.proofs.lemmas.Bool.Decides.{nat_tests};

use super::check::{Finish, Judge};
use super::lengths::fits;
use super::misfit::Misfit;

// of this check; that of the trailing ones happens to be the same
const LONGEST: usize = 512;

#[derive(Clone, Copy, PartialEq, Eq, Debug)]
pub struct NoCheck;

impl Judge for NoCheck {
    ghost bits = { λ _. 0 };

    ghost longest = { λ _. 512 };

    ghost accepted = { λ _ a w. fitting 512 0 a (length w) };

    ghost hopeless = { λ _ _ _. false };

    ghost watchful = { λ _. false };

    ghost carried = { λ _ a w. take a w };

    ghost few = { Prim.search rules };

    ghost accepted_length = { Prim.search rules };

    ghost accepted_hopeful = { Prim.search rules };

    ghost unwatchful_hopeful = { Prim.search rules };

    ghost carried_length = { Prim.search rules };

    fn check_bits(&self) -> usize {
        0
    }

    fn longest_payload(&self) -> usize {
        LONGEST
    }

    fn accepts(&self, a: usize, word: &[bool]) -> bool {
        fits(LONGEST, 0, a, word.len()).is_ok()
    }

    fn watches(&self) -> bool {
        false
    }

    fn is_hopeless(&self, _a: usize, _beginning: &[bool]) -> bool {
        false
    }

    fn read(&self, word: &[bool], payload: &mut [bool]) -> Result<(), Misfit> {
        fits(LONGEST, 0, payload.len(), word.len())?;
        payload.copy_from_slice(word);
        Ok(())
    }
}

impl Finish for NoCheck {
    ghost finished = { λ _ p. p };

    ghost finished_accepted = { Prim.search rules };

    ghost finished_reads_back = { λ c p h. take_all (length p) p (omega arith) };

    ghost accepted_finished = { λ c a w h. let k : length w ≤ a = Prim.grind (arith, nat_tests) in take_all a w k };

    fn finish(&self, payload: &[bool], word: &mut [bool]) -> Result<(), Misfit> {
        fits(LONGEST, 0, payload.len(), word.len())?;
        word.copy_from_slice(payload);
        Ok(())
    }
}
