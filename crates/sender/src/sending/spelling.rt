// The steps of sending, spelled out as bits. Assumes nothing.
ghost use Rattle.std.specs.Prelude.{◌≡◌, ◌≤◌, map, length, IfOk};
ghost use Rattle.std.specs.List.{range_with_len};
ghost use Rattle.block.specs.Checks.{finished_by};
ghost use Rattle.block.specs.Codes.{longest_payload};
ghost use Rattle.code.specs.Laying.{bits_of, laid_at};
ghost use Rattle.sender.specs.Sends.{SentFor};

use crate::failure::Failure;
use block::CheckCode;
use code::{Coded, Laid};
use outer::{Finish, Judge};
use plan::Plan;
use std::alloc::{AllocError, Global};

// Each byte as a bit. The encoder reads them too, but into memory that it has, of a length that it asks for.
fn bits_of(heap: Global, bytes: &[u8]) -> Result<Vec<bool>, AllocError>
    ensures { IfOk result (λ v. v.items ≡ bits_of bytes.now) }
{
    bytes.iter().map(|byte| *byte == 1).collect(heap)
}

// The finished word of a payload that the check takes.
pub fn finished_word(
    heap: Global,
    check: CheckCode,
    payload: &[u8],
) -> Result<Vec<bool>, AllocError>
    requires taken { length payload.now ≤ longest_payload check }
    ensures { IfOk result (λ v. v.items ≡ finished_by check (bits_of payload.now)) }
{
    let bits = bits_of(heap, payload)?;
    let mut word = Vec::from_elem(heap, false, payload.len() + check.check_bits())?;
    let _ = check.finish(bits.as_slice(), word.as_mut_slice());
    Ok(word)
}

// The first bits of a laid word.
pub fn laid_bits(heap: Global, word: &Laid, count: usize) -> Result<Vec<bool>, AllocError>
    ensures { IfOk result (λ v. v.items ≡ map (laid_at word.now) (range_with_len 0 count)) }
{
    (0..count).map(|i| word.bit(i)).collect(heap)
}

// The sent bits of a coded word of a plan.
pub fn sent_bits(heap: Global, plan: &Plan, code: &Coded) -> Result<Vec<u8>, Failure>
    ensures { SentFor plan.now code.now result }
{
    let mut bits = Vec::from_elem(heap, 0, plan.sent_bits())?;
    code.send(bits.as_mut_slice())?;
    Ok(bits)
}
