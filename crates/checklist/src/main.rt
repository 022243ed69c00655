//! Reads a block file from standard input and prints its checklist.
#![tactic(auto)]

use inspect::inspect;
use std::io;
use std::io::Read;

fn main(rt: HostRuntime) -> io::Result<()> {
    let mut input = Vec::new(rt.alloc());
    rt.stdin().read_to_end(&mut input)?;
    match inspect(input.as_slice()) {
        Ok(sheet) => print!(rt; "{sheet}"),
        Err(bad) => print!(rt; "{bad}"),
    }
}
