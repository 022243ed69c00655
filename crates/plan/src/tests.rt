// Requests at their edges, with answers worked out from the rules by hand. Assumes nothing.
use crate::plan::Plan;
use crate::request::Request;
use base::Refusal;

// n 5, A 1, E 32, t 0, p 0, no check.
const ONE: Request = Request {
    n: 5,
    payload: 1,
    sent: 32,
    low: 0,
    parity: 0,
    check_bits: 0,
    longest: 512,
};

// Each with one number beyond its limits.
const BEYOND: [Request; 12] = [
    Request { n: 4, ..ONE },
    Request { n: 11, ..ONE },
    Request { n: 255, ..ONE },
    Request { payload: 0, ..ONE },
    Request {
        n: 10,
        payload: 513,
        sent: 1024,
        longest: 513,
        ..ONE
    },
    Request {
        payload: 5,
        longest: 4,
        ..ONE
    },
    Request { sent: 0, ..ONE },
    Request { sent: 8193, ..ONE },
    Request { low: 33, ..ONE },
    Request { parity: 1, ..ONE },
    Request { parity: 4, ..ONE },
    Request {
        n: 10,
        sent: 1024,
        check_bits: 25,
        ..ONE
    },
];

// Each with just enough open positions.
const GRANTED: [Request; 8] = [
    ONE,
    Request { sent: 1, ..ONE },
    Request { sent: 31, ..ONE },
    Request { sent: 33, ..ONE },
    Request { sent: 8192, ..ONE },
    Request { low: 31, ..ONE },
    Request {
        payload: 5,
        low: 27,
        ..ONE
    },
    Request {
        n: 10,
        payload: 512,
        sent: 1024,
        check_bits: 24,
        parity: 3,
        ..ONE
    },
];

// Each with too few.
const CROWDED: [Request; 5] = [
    Request {
        sent: 1,
        payload: 2,
        ..ONE
    },
    Request {
        sent: 1,
        low: 1,
        ..ONE
    },
    Request { low: 32, ..ONE },
    Request {
        payload: 5,
        low: 28,
        ..ONE
    },
    Request {
        payload: 512,
        check_bits: 24,
        ..ONE
    },
];

// Why the request is refused, if it is.
fn refusal(request: &Request) -> Option<Refusal> {
    Plan::builtin().make(request).err()
}

// Whether all requests get the same answer.
fn all_get(requests: &[Request], answer: Option<Refusal>) -> bool {
    requests.iter().all(|request| refusal(request) == answer)
}

#[test]
fn edges(rt: HostRuntime) {
    assert!(rt; all_get(&BEYOND, Some(Refusal::Limits)));
    assert!(rt; all_get(&GRANTED, None));
    assert!(rt; all_get(&CROWDED, Some(Refusal::Crowded)));
}
