// The check that a code names, as a check itself: each part is that of its kind. Assumes nothing.
ghost use Rattle.block.specs.Checks.{accepted_by, hopeless_by, watchful_by, carried_by, finished_by};
ghost use Rattle.block.specs.CheckLaws.{check-few, accepted-length, accepted-hopeful, unwatchful-hopeful, carried-length, finished-accepted, finished-reads-back, accepted-finished};
ghost use Rattle.block.specs.Codes.{check_bits, longest_payload};

use crate::code::CheckCode;
use outer::{Finish, Judge, Misfit, NoCheck, Spread, Trailing};

impl Judge for CheckCode {
    ghost bits = { check_bits };

    ghost longest = { longest_payload };

    ghost accepted = { accepted_by };

    ghost hopeless = { hopeless_by };

    ghost watchful = { watchful_by };

    ghost carried = { carried_by };

    ghost few = { check-few };

    ghost accepted_length = { λ c a w h. accepted-length c a w h };

    ghost accepted_hopeful = { λ c a w h m. accepted-hopeful c a w m h };

    ghost unwatchful_hopeful = { λ c h a b. unwatchful-hopeful c a b h };

    ghost carried_length = { λ c a w h. carried-length c a w h };

    fn check_bits(&self) -> usize {
        usize::from(self.bits())
    }

    fn longest_payload(&self) -> usize {
        usize::from(self.longest())
    }

    fn accepts(&self, a: usize, word: &[bool]) -> bool {
        match self {
            CheckCode::None => NoCheck.accepts(a, word),
            CheckCode::Trailing6 => Trailing::Six.accepts(a, word),
            CheckCode::Trailing11 => Trailing::Eleven.accepts(a, word),
            CheckCode::Spread4 => Spread::Four.accepts(a, word),
            CheckCode::Spread24 => Spread::TwentyFour.accepts(a, word),
        }
    }

    fn watches(&self) -> bool {
        match self {
            CheckCode::None | CheckCode::Trailing6 | CheckCode::Trailing11 => false,
            CheckCode::Spread4 | CheckCode::Spread24 => true,
        }
    }

    fn is_hopeless(&self, a: usize, beginning: &[bool]) -> bool {
        match self {
            CheckCode::None | CheckCode::Trailing6 | CheckCode::Trailing11 => false,
            CheckCode::Spread4 => Spread::Four.is_hopeless(a, beginning),
            CheckCode::Spread24 => Spread::TwentyFour.is_hopeless(a, beginning),
        }
    }

    fn read(&self, word: &[bool], payload: &mut [bool]) -> Result<(), Misfit> {
        match self {
            CheckCode::None => NoCheck.read(word, payload),
            CheckCode::Trailing6 => Trailing::Six.read(word, payload),
            CheckCode::Trailing11 => Trailing::Eleven.read(word, payload),
            CheckCode::Spread4 => Spread::Four.read(word, payload),
            CheckCode::Spread24 => Spread::TwentyFour.read(word, payload),
        }
    }
}

impl Finish for CheckCode {
    ghost finished = { finished_by };

    ghost finished_accepted = { λ c p h. finished-accepted c p h };

    ghost finished_reads_back = { λ c p h. finished-reads-back c p h };

    ghost accepted_finished = { λ c a w h. accepted-finished c a w h };

    fn finish(&self, payload: &[bool], word: &mut [bool]) -> Result<(), Misfit> {
        match self {
            CheckCode::None => NoCheck.finish(payload, word),
            CheckCode::Trailing6 => Trailing::Six.finish(payload, word),
            CheckCode::Trailing11 => Trailing::Eleven.finish(payload, word),
            CheckCode::Spread4 => Spread::Four.finish(payload, word),
            CheckCode::Spread24 => Spread::TwentyFour.finish(payload, word),
        }
    }
}
