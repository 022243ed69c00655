// The block file of a request: three fields, one after the other. Assumes nothing.
ghost use Rattle.std.specs.Prelude.{◌≡◌, ◌<◌, ◌≤◌, ◌++◌, length, IfOk, OnOk};
ghost use Rattle.block.specs.Layout.{written};
ghost use Rattle.sender.specs.Images.{plan_body, search_body, image_of};

use crate::arrival::values_body;
use crate::request::Request;
use block::{PlanNumbers, SearchNumbers};
use std::alloc::{AllocError, Global};

fn plan_body(p: &PlanNumbers) -> [u8; 9]
    ensures { result ≡ plan_body p.now }
{
    let a = p.payload.to_be_bytes();
    let e = p.sent.to_be_bytes();
    let t = p.low.to_be_bytes();
    [
        p.n,
        a[0],
        a[1],
        e[0],
        e[1],
        t[0],
        t[1],
        p.parity,
        u8::from(p.check),
    ]
}

fn search_body(s: &SearchNumbers) -> [u8; 9]
    ensures { result ≡ search_body s.now }
{
    let c = s.failures.to_be_bytes();
    let t = s.steps.to_be_bytes();
    [
        s.capacity,
        u8::from(s.store),
        c[0],
        c[1],
        t[0],
        t[1],
        t[2],
        t[3],
        s.words,
    ]
}

// Writes a field: its tag, the length of its body, its body.
fn write_field(file: &mut Vec<u8>, tag: u8, body: &[u8]) -> Result<(), AllocError>
    requires short { length body.now < 65536 }
    ensures { OnOk result (file.new.items ≡ file.old.items ++ written tag body.now) }
{
    let [high, low] = (body.len() as u16).to_be_bytes();
    file.extend_from_slice(&[tag, high, low])?;
    file.extend_from_slice(body)?;
    Ok(())
}

// The file that a receiver sees of sent bits.
pub(crate) fn image(heap: Global, request: &Request, bits: &[u8]) -> Result<Vec<u8>, AllocError>
    requires few { length bits.now ≤ 8192 }
    ensures { IfOk result (λ v. v.items ≡ image_of request.now bits.now) }
{
    let values = values_body(heap, request, bits)?;
    let mut file = Vec::new(heap);
    write_field(&mut file, 1, &plan_body(&request.plan))?;
    write_field(&mut file, 2, &search_body(&request.search))?;
    write_field(&mut file, 3, values.as_slice())?;
    Ok(file)
}
