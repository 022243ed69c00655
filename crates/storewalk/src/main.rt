// Plays the calls that standard input lists, one to a line, on a table and on a heap, and prints for each line what
// the two answer and how many they then keep.
#![tactic(auto)]

use heap::Heap;
use std::alloc::{AllocError, Global};
use std::io;
use std::num::ParseIntError;
use store::{Candidate, Store, Table};
use storecalls::{Call, play};

// The words of a line name no call.
struct NoCall;

impl From<ParseIntError> for NoCall {
    fn from(_: ParseIntError) -> NoCall {
        NoCall
    }
}

// The call that the words of a line name.
fn call_of(words: &[&str]) -> Result<Call, NoCall> {
    Ok(match words {
        ["empty", size] => Call::Empty(size.parse()?),
        ["put", metric, length, serial, row] => Call::Put(Candidate {
            metric: metric.parse()?,
            length: length.parse()?,
            serial: serial.parse()?,
            row: row.parse()?,
        }),
        ["take"] => Call::Take,
        ["count"] => Call::Count,
        ["capacity"] => Call::Capacity,
        ["first"] => Call::FirstMetric,
        ["floor"] => Call::Floor,
        ["holds", row] => Call::HoldsRow(row.parse()?),
        _ => return Err(NoCall),
    })
}

// What one store answers, and how many it then keeps.
fn told<S: Store>(heap: Global, store: &mut S, call: Call) -> Result<String, AllocError> {
    let answer = play(store, call);
    let count = store.count();
    format!(in heap; "{answer} {count}")
}

fn main(rt: HostRuntime) -> io::Result<()> {
    let heap = rt.alloc();
    let mut table = Table::new();
    let mut binary = Heap::new();
    for line in rt.lines(heap) {
        let line = line?;
        let words: Vec<&str> = line.as_str().split(' ').collect(heap)?;
        match call_of(words.as_slice()) {
            Ok(call) => {
                let first = told(heap, &mut table, call)?;
                let second = told(heap, &mut binary, call)?;
                println!(rt; "table {first} heap {second}")?;
            }
            Err(NoCall) => println!(rt; "malformed: {line}")?,
        }
    }
    Ok(())
}
