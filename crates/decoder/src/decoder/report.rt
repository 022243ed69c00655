// A new decoder, and its report. Assumes nothing.
ghost use Rattle.std.specs.Prelude.{◌≡◌};
ghost use Rattle.bits.specs.Row.{row_bit};
ghost use Rattle.cost.specs.Rows.{path_at};
ghost use Rattle.decoder.specs.Answers.{reported};
ghost use Rattle.decoder.specs.States.{model_of, unloaded};
ghost use Rattle.decoder.specs.declared.phase.Phase.TheVariants.{Blank};
ghost use Rattle.search.specs.Stores.{ruled};
ghost use Rattle.search.specs.Calls as search;
ghost use Rattle.search.specs.Search.{called};

use super::Decoder;
use crate::block::Block;
use crate::counts::NO_COUNTS;
use crate::phase::Phase;
use crate::report::Report;
use crate::state::State;
use base::{Phased, Refusal};
use bits::Row;
use cost::Rows;
use outer::Judge;
use store::Store;

impl<S: Store, C: Judge> Decoder<S, C> {
    // A decoder that never was loaded, whatever its store keeps.
    pub fn new(store: S, check: C) -> Decoder<S, C>
        ensures model { model_of S.Store C.Judge result.state ≡ unloaded S.Store store }
        ensures phase { result.state.phase ≡ Blank }
        ensures store { result.state.store ≡ store }
        ensures check { result.state.check ≡ check }
    {
        Decoder {
            state: State {
                store,
                check,
                block: Block::blank(),
                rows: Rows::zero(),
                counts: NO_COUNTS,
                phase: Phase::Blank,
            },
        }
    }

    // The store, for whoever wants to see what is kept.
    pub fn store(&self) -> &S
        ensures { result.now ≡ self.now.state.store }
    {
        &self.state.store
    }

    // The path in a row, for whoever wants to see that of a candidate.
    pub fn path(&self, row: u8) -> Row
        ensures { row_bit result ≡ path_at self.now.state.rows row }
    {
        self.state.rows.path(row as usize)
    }

    // The figures since the load.
    pub fn report(&self) -> Result<Report, Refusal>
        ensures answer { reported result ≡ (called ruled (model_of S.Store C.Judge self.now.state) search.Report).1 }
    {
        self.state.phase.admits(Phased::Report)?;
        Ok(self.state.figures())
    }
}
