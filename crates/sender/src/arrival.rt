// How sent bits arrive: the values that a receiver sees of them, as bytes. Assumes nothing.
ghost use Rattle.std.specs.Prelude.{◌≡◌, vec_items, IfOk};
ghost use Rattle.sender.specs.Arrivals.{value_of, flipped, turned};
ghost use Rattle.sender.specs.Images.{values_body};

use crate::request::Request;
use std::alloc::{AllocError, Global};

// The bytes of the values, two for each sent bit.
pub(crate) fn values_body(
    heap: Global,
    request: &Request,
    bits: &[u8],
) -> Result<Vec<u8>, AllocError>
    ensures { IfOk result (λ v. v.items ≡ values_body request.now bits.now) }
{
    let mut body = Vec::new(heap);
    for (k, bit) in bits.iter().enumerate() {
        let one = request.arrives(k, *bit == 1);
        body.extend_from_slice(&request.value(one).to_be_bytes())?;
    }
    Ok(body)
}

impl Request {
    // Sent bit k as it arrives.
    fn arrives(&self, k: usize, bit: bool) -> bool
        ensures { result ≡ turned (vec_items self.now.flips) k bit }
    {
        if self.is_flipped(k) { !bit } else { bit }
    }

    // Whether the sign of sent bit k is turned on the way.
    fn is_flipped(&self, k: usize) -> bool
        ensures { result ≡ flipped (vec_items self.now.flips) k }
    {
        self.flips.iter().any(|flip| usize::from(*flip) == k)
    }

    // The received value of a bit: above 0 for a 0, below 0 for a 1.
    fn value(&self, one: bool) -> i16
        ensures { result ≡ value_of self.now.magnitude one }
    {
        let value = self.magnitude as i16;
        if one { -value } else { value }
    }
}
