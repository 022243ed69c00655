// How many positions carry something. Assumes nothing.
ghost use Rattle.std.specs.Prelude.{◌≡◌, ◌+◌};
ghost use Rattle.plan.specs.Kinds.{kind_of_rank};

use crate::kind::Kind;

#[derive(Clone, Copy)]
pub struct Quota {
    // K, the bits of the finished word
    pub word: u16,
    // p
    pub parity: u8,
}

impl Quota {
    // How many positions are chosen.
    pub fn total(self) -> usize
        ensures { result ≡ self.word + self.parity }
    {
        self.word as usize + self.parity as usize
    }

    // The kind at a rank among the open positions.
    pub fn kind_of_rank(self, rank: usize) -> Kind
        ensures { result ≡ kind_of_rank self.word self.parity rank }
    {
        if rank < self.word as usize {
            Kind::Information
        } else if rank < self.total() {
            Kind::Parity
        } else {
            Kind::Frozen
        }
    }
}
