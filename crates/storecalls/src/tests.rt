// Both stores on short runs whose answers were worked out by hand.
use crate::call::{Answer, Call};
use crate::plays::play;
use heap::Heap;
use std::process::Abort;
use store::{Candidate, Store, Table};

fn with(metric: u32, length: u16, serial: u32, row: u8) -> Candidate {
    Candidate {
        metric,
        length,
        serial,
        row,
    }
}

// Puts all of them and takes as many as come: in this order, then nothing.
fn comes_out<S: Store>(
    rt: &impl Abort,
    store: &mut S,
    puts: &[Candidate],
    takes: &[Candidate],
    floor: Option<u32>,
) {
    for c in puts {
        let _ = play(store, Call::Put(*c));
    }
    assert_eq!(rt; play(store, Call::Floor), Answer::Metric(floor));
    for c in takes {
        assert_eq!(rt; play(store, Call::Take), Answer::Taken(Some(*c)));
    }
    assert_eq!(rt; play(store, Call::Take), Answer::Taken(None));
    assert_eq!(rt; play(store, Call::Floor), Answer::Metric(floor));
}

// The same of both stores, emptied to a capacity.
fn both(
    rt: &impl Abort,
    capacity: usize,
    puts: &[Candidate],
    takes: &[Candidate],
    floor: Option<u32>,
) {
    let mut table = Table::new();
    let mut heap = Heap::new();
    let _ = play(&mut table, Call::Empty(capacity));
    let _ = play(&mut heap, Call::Empty(capacity));
    comes_out(rt, &mut table, puts, takes, floor);
    comes_out(rt, &mut heap, puts, takes, floor);
}

#[test]
fn ties_go_by_length_serial_and_row(rt: HostRuntime) {
    let (a, b, c, d, e) = (
        with(3, 9, 7, 0),
        with(5, 9, 7, 1),
        with(5, 8, 2, 1),
        with(5, 8, 3, 1),
        with(5, 8, 3, 2),
    );
    both(&rt, 8, &[e, c, a, d, b], &[a, b, c, d, e], None);
}

#[test]
fn equal_candidates_are_both_kept(rt: HostRuntime) {
    let (a, b) = (with(1, 1, 1, 1), with(2, 1, 1, 1));
    both(&rt, 4, &[a, b, a, a], &[a, a, a, b], None);
}

#[test]
fn a_full_store_sheds_the_last(rt: HostRuntime) {
    let (a, b, c, d) = (
        with(10, 1, 0, 0),
        with(20, 1, 1, 1),
        with(30, 1, 2, 2),
        with(40, 1, 3, 3),
    );
    both(&rt, 2, &[b, c, a], &[a, b], Some(30));
    both(&rt, 2, &[a, b, d, c], &[a, b], Some(30));
    both(&rt, 1, &[b, a, c], &[a, b], Some(30));
    both(&rt, 0, &[d, c, b, a], &[a, b], Some(30));
}

#[test]
fn the_largest_numbers_fit(rt: HostRuntime) {
    let most = with(u32::MAX, u16::MAX, u32::MAX, u8::MAX);
    let (shorter, less) = (
        with(u32::MAX, 0, u32::MAX, u8::MAX),
        with(u32::MAX - 1, 0, u32::MAX, u8::MAX),
    );
    both(
        &rt,
        2,
        &[shorter, most, less],
        &[less, most],
        Some(u32::MAX),
    );
}

// Of 129 puts into a store emptied to 200, 128 stay.
fn fills<S: Store>(rt: &impl Abort, store: &mut S) {
    let _ = play(store, Call::Empty(200));
    assert_eq!(rt; play(store, Call::Capacity), Answer::Number(128));
    for i in 0..129u32 {
        let _ = play(store, Call::Put(with(1000 - i, 1, i, (i % 128) as u8)));
    }
    assert_eq!(rt; play(store, Call::Count), Answer::Number(128));
    assert_eq!(rt; play(store, Call::Floor), Answer::Metric(Some(1000)));
    assert_eq!(rt; play(store, Call::FirstMetric), Answer::Metric(Some(872)));
    assert_eq!(rt; play(store, Call::HoldsRow(0)), Answer::Held(true));
    assert_eq!(rt; play(store, Call::HoldsRow(128)), Answer::Held(false));
}

#[test]
fn a_store_keeps_at_most_128(rt: HostRuntime) {
    fills(&rt, &mut Table::new());
    fills(&rt, &mut Heap::new());
}
