// The spread check: the check bits stand among the payload bits. Assumes nothing.
ghost use Rattle.std.specs.Prelude.{true};
ghost use Rattle.crc.specs.Spread.{width, longest, interleaved, deinterleaved, broken, sound};
ghost use Rattle.crc.proofs.Interleaving.{sound-parts, sound-hopeful, length-deinterleaved, interleaved-sound, interleaved-reads-back, sound-interleaved};
ghost use Rattle.std.proofs.Common.{rules};

use super::check::{Finish, Judge};
use super::layout::Layout;
use super::misfit::Misfit;
use super::pattern::{longest_of, width_of};
use crc::Spread;

impl Judge for Spread {
    ghost bits = { width };

    ghost longest = { longest };

    ghost accepted = { sound };

    ghost hopeless = { broken };

    ghost watchful = { λ _. true };

    ghost carried = { deinterleaved };

    ghost few = { Prim.search rules };

    ghost accepted_length = { λ c a w h. let p = sound-parts c a w h in (p.0, p.1) };

    ghost accepted_hopeful = { λ c a w h m. sound-hopeful c a w m h };

    ghost unwatchful_hopeful = { Prim.search rules };

    ghost carried_length = { λ c a w h. length-deinterleaved c a w };

    fn check_bits(&self) -> usize {
        width_of(*self)
    }

    fn longest_payload(&self) -> usize {
        longest_of(*self)
    }

    fn accepts(&self, a: usize, word: &[bool]) -> bool {
        Layout::of_word(*self, a, word.len()).is_ok_and(|layout| !layout.breaks(word))
    }

    fn watches(&self) -> bool {
        true
    }

    fn is_hopeless(&self, a: usize, beginning: &[bool]) -> bool {
        a <= longest_of(*self) && Layout::new(*self, a).breaks(beginning)
    }

    fn read(&self, word: &[bool], payload: &mut [bool]) -> Result<(), Misfit> {
        Layout::of_word(*self, payload.len(), word.len())?.deinterleave(word, payload);
        Ok(())
    }
}

impl Finish for Spread {
    ghost finished = { interleaved };

    ghost finished_accepted = { λ c p h. interleaved-sound c p h };

    ghost finished_reads_back = { λ c p h. interleaved-reads-back c p h };

    ghost accepted_finished = { λ c a w h. sound-interleaved c a w h };

    fn finish(&self, payload: &[bool], word: &mut [bool]) -> Result<(), Misfit> {
        Layout::of_word(*self, payload.len(), word.len())?.interleave(payload, word);
        Ok(())
    }
}
