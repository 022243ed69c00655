// All that a decoder holds. The parts of a call work on it; between them it need not be coherent. Assumes nothing.
mod advance;
mod figures;
mod load;
mod shown;
mod step;

use crate::block::Block;
use crate::counts::Counts;
use crate::phase::Phase;
use cost::Rows;

#[derive(Drop)]
pub struct State<S, C> {
    pub store: S,
    pub check: C,
    // the loaded block
    pub block: Block,
    // the paths of the kept candidates, and of the one that is shown
    pub rows: Rows,
    pub counts: Counts,
    pub phase: Phase,
}
