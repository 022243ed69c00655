// Payload bytes and the bits that they stand for. Assumes nothing.
ghost use Rattle.std.specs.Prelude.{◌≡◌, length, nat_lt, slice_index};
ghost use Rattle.code.specs.First.{first_below};
ghost use Rattle.code.specs.Laying.{bits_of};

// The index of the first byte above 1.
pub fn first_above_one(bytes: &[u8]) -> Option<usize>
    ensures { result ≡ first_below (λ k. nat_lt 1 (slice_index bytes.now k)) (length bytes.now) }
{
    bytes.iter().position(|byte| *byte > 1)
}

// Reads each byte as a bit.
pub fn read_bits(bytes: &[u8], bits: &mut [bool])
    requires whole { length bits.old ≡ length bytes.now }
    ensures { bits.new ≡ bits_of bytes.now }
{
    // by index: of what is written through a zip of iter_mut, a proof knows the length alone
    for (i, byte) in bytes.iter().enumerate() {
        bits[i] = *byte == 1;
    }
}
