// The word that is shown: its payload, and striking it. Assumes nothing.
ghost use Rattle.std.specs.Prelude.{◌≡◌, true, map, length};
ghost use Rattle.code.specs.Sending.{byte_of};
ghost use Rattle.decoder.specs.Answers.{KeptIfRefused, output_after, payload_in, reported, word_answer};
ghost use Rattle.decoder.specs.Blocks.{plan_in};
ghost use Rattle.base.specs.declared.refusal.Phased.TheVariants as call;
ghost use Rattle.decoder.specs.Phases.{allows};
ghost use Rattle.decoder.specs.States.{model_of};
ghost use Rattle.plan.specs.Plans.{payload_bits};
ghost use Rattle.search.specs.Calls as search;
ghost use Rattle.search.specs.Search.{called};
ghost use Rattle.search.specs.Stores.{ruled};

use super::Decoder;
use crate::path::gather;
use crate::phase::Phase;
use crate::report::Report;
use base::{Phased, Refusal};
use outer::Judge;
use store::Store;

impl<S: Store, C: Judge> Decoder<S, C> {
    // Strikes the shown word, so that the search may go on to the next.
    pub fn strike(&mut self) -> Result<Report, Refusal>
        ensures model { model_of S.Store C.Judge self.new.state ≡ (called ruled (model_of S.Store C.Judge self.old.state) search.Strike).0 }
        ensures answer { reported result ≡ (called ruled (model_of S.Store C.Judge self.old.state) search.Strike).1 }
        ensures check { self.new.state.check ≡ self.old.state.check }
        ensures refused { KeptIfRefused result self.old self.new }
    {
        self.state.phase.admits(Phased::Strike)?;
        self.state.phase = Phase::Searching;
        Ok(self.state.figures())
    }

    // Writes the payload of the shown word into a buffer of its length.
    fn write_payload(&self, output: &mut [u8])
        requires size { length output.old ≡ payload_bits (plan_in self.now.state.block) }
        ensures { allows self.now.state.phase call.Word ≡ true → output.new ≡ map byte_of (payload_in (model_of S.Store C.Judge self.now.state)) }
    {
        let Phase::Shown(c) = self.state.phase else {
            return;
        };
        let mut room = [false; 1024];
        let mut payload = [false; 512];
        let plan = self.state.block.plan();
        let path = self.state.rows.path(c.row as usize);
        let word = gather(plan, &path, plan.length(), &mut room);
        let size = plan.payload_bits();
        self.state
            .write_carried(word, &mut payload[0..size], output);
    }

    // Writes the payload of the shown word, a byte for each bit.
    pub fn word(&self, output: &mut [u8]) -> Result<(), Refusal>
        ensures answer { word_answer (payload_in (model_of S.Store C.Judge self.now.state)) result ≡ (called ruled (model_of S.Store C.Judge self.now.state) (search.Word (length output.old))).1 }
        ensures output { output.new ≡ output_after result (payload_in (model_of S.Store C.Judge self.now.state)) output.old }
        ensures refused { KeptIfRefused result output.old output.new }
    {
        self.state.phase.admits(Phased::Word)?;
        if output.len() != self.state.block.plan().payload_bits() {
            return Err(Refusal::OutputLength);
        }
        self.write_payload(output);
        Ok(())
    }
}
