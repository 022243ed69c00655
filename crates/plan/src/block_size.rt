// The length of a block, and the order of its places. Assumes nothing.
ghost use Rattle.std.specs.Prelude.{◌≡◌, ◌^◌, ◌<◌, ◌≤◌, slice_index};
ghost use Rattle.plan.specs.Order.{order_at, pattern};

// A block has N = 2 ^ n places.
#[derive(Clone, Copy)]
pub struct BlockSize {
    pub n: u8,
    ghost least: { 5 ≤ n },
    ghost most: { n ≤ 10 },
}

impl BlockSize {
    // N.
    pub fn length(self) -> usize
        ensures result { result ≡ 2 ^ self.n }
        ensures limits { (32 ≤ result) × (result ≤ 1024) }
    {
        1 << self.n
    }

    // The place at index k of the order.
    pub fn place(self, k: usize) -> usize
        requires { k < 2 ^ self.n }
        ensures result { result ≡ order_at self.n k }
        ensures inside { result < 2 ^ self.n }
    {
        let length = self.length();
        let size = length / 32;
        part(32 * k / length) * size + k % size
    }
}

// The order of the 32 equal parts of a block.
const PATTERN: [u8; 32] = [
    0, 1, 2, 4, 3, 5, 6, 7, 8, 16, 9, 17, 10, 18, 11, 19, 12, 20, 13, 21, 14, 22, 15, 23, 24, 25,
    26, 28, 27, 29, 30, 31,
];

// Where the part at an index of the order stands.
fn part(a: usize) -> usize
    requires { a < 32 }
    ensures result { result ≡ slice_index pattern a }
    ensures inside { result < 32 }
{
    PATTERN[a] as usize
}
