// What a sender makes of a request, byte for byte, and that it has the memory to. Its contracts allow want of memory
// at any time, so a run has to show that it does not give up.
use crate::file::WORKED;
use base::Refusal;
use block::{CheckCode, PlanNumbers, SearchNumbers, StoreCode};
use sender::{Failure, Request, file_of, send};
use std::alloc::Global;
use std::test::Fail;

// The request of the worked file, but for its payload and the sent bits that arrive turned.
fn worked(alloc: Global, payload: &[u8], flips: &[u16]) -> Result<Request, Fail> {
    let plan = PlanNumbers {
        n: 5,
        payload: 4,
        sent: 32,
        low: 0,
        parity: 0,
        check: CheckCode::None,
    };
    let search = SearchNumbers {
        capacity: 8,
        store: StoreCode::Table,
        failures: 1,
        steps: 4096,
        words: 2,
    };
    let payload = payload.to_vec(alloc)?;
    let flips = flips.to_vec(alloc)?;
    Ok(Request::new(plan, search, payload, 10, flips)?)
}

// Four zeros are laid, coded and sent as zeros: every value is 10.
#[test]
fn the_worked_file_is_made(rt: HostRuntime) -> Result<(), Fail> {
    let request = worked(rt.alloc(), &[0, 0, 0, 0], &[])?;
    let file = file_of(rt.alloc(), &request)?;
    assert!(rt; file.as_slice() == &WORKED[..]);
    Ok(())
}

// Value k begins at 27 + 2k; bit 3 turned is -10, 0xfff6.
#[test]
fn a_turned_bit_arrives_with_the_other_sign(rt: HostRuntime) -> Result<(), Fail> {
    let request = worked(rt.alloc(), &[0, 0, 0, 0], &[3])?;
    let file = file_of(rt.alloc(), &request)?;
    let mut expected = WORKED;
    expected[33] = 0xff;
    expected[34] = 0xf6;
    assert!(rt; file.as_slice() == &expected[..]);
    Ok(())
}

// Information stands at 27, 29, 30 and 31. A one at 31 alone is a one at every place.
#[test]
fn a_one_at_the_last_position_is_sent_everywhere(rt: HostRuntime) -> Result<(), Fail> {
    let request = worked(rt.alloc(), &[0, 0, 0, 1], &[])?;
    let sending = send(rt.alloc(), &request)?;
    assert_eq!(rt; sending.sent.len(), 32);
    assert!(rt; sending.sent.iter().all(|bit| *bit == 1));
    Ok(())
}

#[test]
fn a_short_payload_is_refused_by_laying(rt: HostRuntime) -> Result<(), Fail> {
    let request = worked(rt.alloc(), &[0, 0, 0], &[])?;
    match file_of(rt.alloc(), &request) {
        Err(Failure::Refused(Refusal::Payload { at })) => {
            assert_eq!(rt; at, 0);
            Ok(())
        }
        _ => Err(Fail::new("laying refuses three bits for four")),
    }
}
