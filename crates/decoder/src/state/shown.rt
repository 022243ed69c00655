// Writing the payload of an accepted word. For the decoder alone: hence the `requires`. Assumes nothing.
ghost use Rattle.std.specs.Prelude.{◌≡◌, true, map, length};
ghost use Rattle.code.specs.Sending.{byte_of};

use super::State;
use outer::Judge;

// Writes bits as bytes, as many as there are.
fn write_bytes(bits: &[bool], output: &mut [u8])
    requires size { length bits.now ≡ length output.old }
    ensures { output.new ≡ map byte_of bits.now }
{
    // by index: of a zip with iter_mut the check doesn't know what it leaves in the slice
    for (k, bit) in bits.iter().enumerate() {
        output[k] = u8::from(*bit);
    }
}

impl<S, C: Judge> State<S, C> {
    // Writes the payload of an accepted word; payload is memory to work in.
    pub fn write_carried(&self, word: &[bool], payload: &mut [bool], output: &mut [u8])
        requires size { length payload.old ≡ length output.old }
        ensures { C.accepted self.now.check (length output.old) word.now ≡ true → output.new ≡ map byte_of (C.carried self.now.check (length output.old) word.now) }
    {
        let _ = self.check.read(word, payload);
        write_bytes(payload, output);
    }
}
