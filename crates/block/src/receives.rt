// The received values in the body of the third field. Assumes nothing.
ghost use Rattle.std.specs.Prelude.{◌≡◌};
ghost use Rattle.block.specs.Fields.{received_at};

// Value k, in two bytes and two's complement; 0 beyond the last.
pub fn received(body: &[u8], k: usize) -> i16
    ensures { result ≡ received_at body.now k }
{
    if k >= body.len() / 2 {
        return 0;
    }
    i16::from_be_bytes([body[2 * k], body[2 * k + 1]])
}
