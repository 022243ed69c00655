// Single bits of a word of 64, and the butterfly inside it. Assumes nothing.
ghost use Rattle.std.specs.Prelude.{◌≡◌, ℕ, ◌+◌, ◌/◌, ◌%◌, ◌^◌, ◌<◌, ◌≤◌, ◌&&◌, ◌⊎◌, if◌then◌else◌, ◌==◌, nat_eq, nat_le, nat_lt};
ghost use Rattle.base.specs.Bits.{bit_of};
ghost use Rattle.base.specs.Transform.{code_bit};
ghost use Rattle.bits.specs.Blocks.{block_bit, stage_bit};
ghost use Rattle.bits.specs.Row.{same_bits};

// In the mask of stage s bit k is set where bit s of k is 0.
const STAGE_MASKS: [u64; 6] = [
    0x5555_5555_5555_5555,
    0x3333_3333_3333_3333,
    0x0f0f_0f0f_0f0f_0f0f,
    0x00ff_00ff_00ff_00ff,
    0x0000_ffff_0000_ffff,
    0x0000_0000_ffff_ffff,
];

// Places are numbers below 64: a type for them would be made at each call and taken apart in each body.
pub fn bit(x: u64, k: usize) -> bool
    requires width { k < 64 }
    ensures { result ≡ bit_of x k }
{
    (x >> k) % 2 == 1
}

pub fn with_bit(x: u64, k: usize, value: bool) -> u64
    requires width { k < 64 }
    ensures { (j : ℕ) → j < 64 → bit_of result j ≡ (if nat_eq j k then value else bit_of x j) }
{
    if value { x | (1 << k) } else { x & !(1 << k) }
}

// Whether the lowest n bits of both are the same.
pub fn same_low(x: u64, y: u64, n: usize) -> bool
    requires width { n < 64 }
    ensures { result ≡ same_bits (bit_of x) (bit_of y) n }
{
    let mask = (1 << n) - 1;
    x & mask == y & mask
}

fn stage_mask(s: usize) -> u64
    requires width { s < 6 }
    ensures { (k : ℕ) → k < 64 → bit_of result k ≡ (k / 2 ^ s % 2 == 0) }
{
    STAGE_MASKS[s]
}

fn stage(x: u64, s: usize) -> u64
    requires width { s < 6 }
    ensures { (k : ℕ) → k < 64 → bit_of result k ≡ stage_bit s (bit_of x) k }
{
    x ^ ((x >> (1usize << s)) & stage_mask(s))
}

// Transforms every aligned block of 2^n bits.
pub fn transform_blocks(x: u64, n: usize) -> u64
    requires width { n ≤ 6 }
    ensures { (k : ℕ) → k < 64 → bit_of result k ≡ block_bit n (bit_of x) k }
{
    (0..n).fold(x, stage)
}

// 2^n ones from offset on.
fn span(offset: usize, n: usize) -> u64
    requires width { (n < 6) × (offset < 64) }
    ensures { (k : ℕ) → k < 64 → bit_of result k ≡ (nat_le offset k && nat_lt k (offset + 2 ^ n)) }
{
    ((1 << (1usize << n)) - 1) << offset
}

// Transforms the 2^n bits from offset on, and no others.
pub fn transform_block(x: u64, offset: usize, n: usize) -> u64
    requires width { (n < 6) × (offset < 64) }
    requires aligned { offset % 2 ^ n ≡ 0 }
    ensures inside { (i : ℕ) → i < 2 ^ n → bit_of result (offset + i) ≡ code_bit n (λ k. bit_of x (offset + k)) i }
    ensures outside { (k : ℕ) → k < 64 → (k < offset) ⊎ (offset + 2 ^ n ≤ k) → bit_of result k ≡ bit_of x k }
{
    let mask = span(offset, n);
    (x & !mask) | (transform_blocks(x, n) & mask)
}
