// The readers of a plan, which answer for every argument. Assumes nothing.
ghost use Rattle.std.specs.Prelude.{◌≡◌, ◌<◌, ◌≤◌};
ghost use Rattle.plan.specs.Plans.{log_length, block_length, payload_bits, check_bits, word_bits, sent_bits, low_bound, parity_bits, mode_in, kind_at, place_of, sent_at};

use crate::block_size::BlockSize;
use crate::kind::Kind;
use crate::matching::Matching;
use crate::mode::Mode;
use crate::plan::Plan;

impl Plan {
    // n, where the block has 2 ^ n positions.
    pub fn log_length(&self) -> u8
        ensures result { result ≡ log_length self.now }
        ensures limits { (5 ≤ result) × (result ≤ 10) }
    {
        self.n
    }

    // N, the length of the block.
    pub fn length(&self) -> usize
        ensures result { result ≡ block_length self.now }
        ensures limits { (32 ≤ result) × (result ≤ 1024) }
    {
        BlockSize { n: self.n }.length()
    }

    // A, the length of the payload.
    pub fn payload_bits(&self) -> usize
        ensures result { result ≡ payload_bits self.now }
        ensures limits { (1 ≤ result) × (result ≤ 512) }
    {
        self.payload as usize
    }

    // L, the bits that the outer check adds.
    pub fn check_bits(&self) -> usize
        ensures result { result ≡ check_bits self.now }
        ensures limits { result ≤ 24 }
    {
        self.check_bits as usize
    }

    // K, the length of the finished word.
    pub fn word_bits(&self) -> usize
        ensures result { result ≡ word_bits self.now }
        ensures limits { (1 ≤ result) × (result ≤ 536) }
    {
        self.payload_bits() + self.check_bits()
    }

    // E, how many bits are sent.
    pub fn sent_bits(&self) -> usize
        ensures result { result ≡ sent_bits self.now }
        ensures limits { (1 ≤ result) × (result ≤ 8192) }
    {
        self.sent as usize
    }

    // t: positions below it are barred.
    pub fn low_bound(&self) -> usize
        ensures result { result ≡ low_bound self.now }
        ensures limits { result ≤ block_length self.now }
    {
        self.low as usize
    }

    // p, how many positions are parity.
    pub fn parity_bits(&self) -> usize
        ensures result { result ≡ parity_bits self.now }
        ensures limits { result ≤ 3 }
    {
        self.parity as usize
    }

    pub fn mode(&self) -> Mode
        ensures { result ≡ mode_in self.now }
    {
        self.mode
    }

    // The kind of a position; frozen beyond the block.
    pub fn kind(&self, i: usize) -> Kind
        ensures { result ≡ kind_at self.now i }
    {
        self.kinds.get(i).copied().unwrap_or(Kind::Frozen)
    }

    // The code place of sent bit k; 0 past the last sent bit.
    pub fn place(&self, k: usize) -> usize
        ensures result { result ≡ place_of self.now k }
        ensures inside { result < block_length self.now }
    {
        if k < self.sent_bits() {
            self.matching().place(k)
        } else {
            0
        }
    }

    // Whether a code place is sent at all.
    pub fn is_sent(&self, i: usize) -> bool
        ensures { result ≡ sent_at self.now i }
    {
        self.marks.get(i).copied().unwrap_or(false)
    }

    fn matching(&self) -> Matching
        ensures size { result.size.n ≡ log_length self.now }
        ensures sent { result.sent ≡ sent_bits self.now }
        ensures mode { result.mode ≡ mode_in self.now }
    {
        Matching {
            size: BlockSize { n: self.n },
            sent: self.sent,
            mode: self.mode,
        }
    }
}
