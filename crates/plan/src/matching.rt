// The rate matching of a block: which of its places each sent bit carries. Assumes nothing.
ghost use Rattle.std.specs.Prelude.{◌≡◌, ℕ, ◌^◌, ◌<◌, ◌≤◌, false, ◌≢◌, slice_index_or};
ghost use Rattle.plan.specs.declared.mode.Mode.TheVariants.{Repeat};
ghost use Rattle.plan.specs.Order.{mode_of, sent_place, sent_by};

use crate::block_size::BlockSize;
use crate::mode::Mode;
use crate::reliability::POSITIONS;

#[derive(Clone, Copy)]
pub struct Matching {
    pub size: BlockSize,
    // E
    pub sent: u16,
    pub mode: Mode,
    // in a mode other than repeat no more than N bits are sent
    ghost bounded: { (mode ≢ Repeat) → sent ≤ 2 ^ size.n },
}

impl Matching {
    // That of K word bits and E sent bits.
    pub fn new(size: BlockSize, word: u16, sent: u16) -> Matching
        ensures size { result.size.n ≡ size.n }
        ensures sent { result.sent ≡ sent }
        ensures mode { result.mode ≡ mode_of size.n word sent }
    {
        let mode = if sent as usize >= size.length() {
            Mode::Repeat
        } else if 16 * word as usize <= 7 * sent as usize {
            Mode::Puncture
        } else {
            Mode::Shorten
        };
        Matching { size, sent, mode }
    }

    // The code place of sent bit k.
    pub fn place(&self, k: usize) -> usize
        requires { k < self.now.sent }
        ensures result { result ≡ sent_place self.now.mode self.now.size.n self.now.sent k }
        ensures inside { result < 2 ^ self.now.size.n }
    {
        let length = self.size.length();
        match self.mode {
            Mode::Repeat => self.size.place(k % length),
            Mode::Puncture => self.size.place(k + length - self.sent as usize),
            Mode::Shorten => self.size.place(k),
        }
    }

    // Which code places are sent.
    pub fn marks(&self) -> [bool; POSITIONS]
        ensures { (i : ℕ) → slice_index_or result i false ≡ sent_by self.now.mode self.now.size.n self.now.sent i }
    {
        let mut marks = [false; POSITIONS];
        // k numbers the sent bits, which no list holds
        for k in 0..self.sent as usize {
            marks[self.place(k)] = true;
        }
        marks
    }
}
