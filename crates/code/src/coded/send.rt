// The transform of a laid word, and the sending of the coded one. Assumes nothing.
ghost use Rattle.std.specs.Prelude.{◌≡◌, ◌<◌, length};
ghost use Rattle.plan.specs.Plans.{block_length, sent_bits, mode_in};
ghost use Rattle.code.specs.First.{first_below};
ghost use Rattle.code.specs.Sending.{coded_plan, coded_at, Transforms, Sends, SentBits, is_shorten, shortened_one};

use crate::coded::Coded;
use crate::laid::Laid;
use base::Refusal;
use plan::Mode;

impl Laid {
    // The coded word of this one, which is used up.
    pub fn transform(self) -> Coded
        ensures { Transforms self result }
    {
        let Laid { plan, mut bits } = self;
        bits.transform(plan.log_length() as usize);
        Coded { plan, bits }
    }
}

impl Coded {
    // The bit at place i; beyond the block it is 0.
    pub fn bit(&self, i: usize) -> bool
        ensures { result ≡ coded_at self.now i }
    {
        self.bits.get(i)
    }

    // Writes the E sent bits, one to a byte, or refuses and leaves the buffer as it was.
    pub fn send(&self, out: &mut [u8]) -> Result<(), Refusal>
        ensures { Sends self.now out.old result out.new }
    {
        if out.len() != self.plan.sent_bits() {
            return Err(Refusal::SentLength);
        }
        if let Some(at) = self.first_shortened_one() {
            return Err(Refusal::ShortenedOne { at });
        }
        self.write_sent(out);
        Ok(())
    }

    fn is_shortened(&self) -> bool
        ensures { result ≡ is_shorten (mode_in (coded_plan self.now)) }
    {
        self.plan.mode() == Mode::Shorten
    }

    fn is_shortened_one(&self, i: usize) -> bool
        ensures { result ≡ shortened_one (coded_plan self.now) (coded_at self.now) i }
    {
        self.is_shortened() && !self.plan.is_sent(i) && self.bit(i)
    }

    // The lowest shortened place that carries a one.
    fn first_shortened_one(&self) -> Option<usize>
        ensures { result ≡ first_below (shortened_one (coded_plan self.now) (coded_at self.now)) (block_length (coded_plan self.now)) }
    {
        (0..self.plan.length()).find(|i| self.is_shortened_one(*i))
    }

    // Writes the sent bits into a buffer of their number.
    fn write_sent(&self, out: &mut [u8])
        requires whole { length out.old ≡ sent_bits (coded_plan self.now) }
        ensures { SentBits (coded_plan self.now) (coded_at self.now) out.new }
    {
        for (k, byte) in out.iter_mut().enumerate() {
            *byte = u8::from(self.bit(self.plan.place(k)));
        }
    }
}
