// The phases of a decoder. Assumes nothing.
mod calls;

use store::Candidate;

// What a call does depends on the phase that it meets.
#[derive(Clone, Copy)]
pub enum Phase {
    // nothing was ever loaded
    Blank,
    // a block is loaded and the search may go on
    Searching,
    // a word is shown: the candidate that has its path
    Shown(Candidate),
    // the search of this block is over
    Ended,
}
