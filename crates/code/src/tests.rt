// Words laid, transformed and sent, and values recovered, worked out from the rules by hand. Assumes nothing.
use crate::coded::Coded;
use crate::laid::Laid;
use crate::recovery::recover;
use base::Refusal;
use outer::{NoCheck, Trailing};
use plan::{Plan, Request};
use std::process::Abort;

// n 5, A 5, E 32, p 3, no check: information 23, 27, 29, 30, 31, parity 15, 26, 28.
const REPEATED: Request = Request {
    n: 5,
    payload: 5,
    sent: 32,
    low: 0,
    parity: 3,
    check_bits: 0,
    longest: 512,
};

// n 5, A 4, L 6, E 24, p 3: punctured.
const PUNCTURED: Request = Request {
    n: 5,
    payload: 4,
    sent: 24,
    low: 0,
    parity: 3,
    check_bits: 6,
    longest: 512,
};

// n 5, A 6, L 6, E 20, p 3: shortened, 14, 15 and 22 to 31 unsent.
const SHORTENED: Request = Request {
    n: 5,
    payload: 6,
    sent: 20,
    low: 0,
    parity: 3,
    check_bits: 6,
    longest: 512,
};

fn planned(rt: &impl Abort, request: &Request) -> Plan {
    let mut plan = Plan::builtin();
    assert!(rt; plan.make(request).is_ok());
    plan
}

#[test]
fn laid_and_sent(rt: HostRuntime) {
    let plan = planned(&rt, &REPEATED);
    let mut word = Laid::fresh(&plan);
    assert!(rt; word.lay(&NoCheck, &[1, 1, 1, 1, 1]).is_ok());
    // a second payload is laid over the first
    assert!(rt; word.lay(&NoCheck, &[1, 0, 1, 1, 0]).is_ok());
    assert!(rt; word.bits.get(23) && word.bits.get(28) && word.bits.get(29) && word.bits.get(30));
    assert!(rt;
        !word.bits.get(15) && !word.bits.get(26) && !word.bits.get(27) && !word.bits.get(31)
    );
    let coded: Coded = word.transform();
    let mut out = [7; 32];
    assert!(rt; coded.send(&mut out).is_ok());
    let sent = [
        0, 0, 0, 0, 1, 0, 0, 1, 1, 0, 1, 0, 1, 0, 0, 1, 1, 0, 1, 0, 1, 0, 0, 1, 1, 1, 1, 1, 0, 1,
        1, 0,
    ];
    assert!(rt; out == sent);
}

#[test]
fn punctured_with_a_check(rt: HostRuntime) {
    let plan = planned(&rt, &PUNCTURED);
    let mut word = Laid::fresh(&plan);
    assert!(rt; word.lay(&Trailing::Six, &[1, 0, 1, 1]).is_ok());
    let mut out = [7; 24];
    assert!(rt; word.transform().send(&mut out).is_ok());
    let sent = [
        0, 0, 0, 0, 1, 1, 0, 0, 0, 0, 1, 1, 0, 0, 0, 0, 1, 1, 0, 1, 1, 0, 1, 1,
    ];
    assert!(rt; out == sent);
}

#[test]
fn laying_refused(rt: HostRuntime) {
    let plan = planned(&rt, &REPEATED);
    let mut word = Laid::fresh(&plan);
    assert!(rt; word.lay(&Trailing::Six, &[1, 0, 1, 1, 0]) == Err(Refusal::Payload { at: 0 }));
    assert!(rt; word.lay(&NoCheck, &[1, 0, 1, 2]) == Err(Refusal::Payload { at: 0 }));
    assert!(rt; word.lay(&NoCheck, &[1, 0, 1, 2, 7]) == Err(Refusal::Payload { at: 3 }));
    let mut out = [7; 31];
    assert!(rt; word.transform().send(&mut out) == Err(Refusal::SentLength));
    assert!(rt; out[0] == 7);
}

#[test]
fn recovered(rt: HostRuntime) {
    let repeated = planned(
        &rt,
        &Request {
            sent: 35,
            ..REPEATED
        },
    );
    let mut values = [0; 35];
    values[0] = 7;
    values[1] = 5;
    values[2] = -4;
    values[3] = 9;
    values[32] = -3;
    values[33] = 5;
    values[34] = 4;
    let mut llrs = [1; 32];
    assert!(rt; recover(&repeated, &values, &mut llrs).is_ok());
    assert!(rt; llrs[0] == 4 && llrs[1] == 10 && llrs[2] == 0 && llrs[4] == 9);
    let shortened = planned(&rt, &SHORTENED);
    let mut values = [0; 20];
    values[3] = 4095;
    values[4] = -4095;
    assert!(rt; recover(&shortened, &values, &mut llrs).is_ok());
    assert!(rt;
        llrs[4] == 4095
            && llrs[3] == -4095
            && llrs[14] == 1_048_576
            && llrs[31] == 1_048_576
            && llrs[13] == 0
    );
    values[7] = -4096;
    values[9] = 4096;
    assert!(rt; recover(&shortened, &values, &mut llrs) == Err(Refusal::Value { at: 7 }));
    assert!(rt; recover(&shortened, &values[0..19], &mut llrs) == Err(Refusal::ReceivedLength));
    assert!(rt; llrs[4] == 4095);
}
