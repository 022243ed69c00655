//! Reads a block file from standard input and the bits of a path from its argument, and prints what each bit costs.
#![tactic(auto)]

mod path;

use anyhow::Context;
use base::Refusal;
use block::examine;
use ledger::{Account, soft_values};
use path::PathBits;
use plan::Plan;
use std::env;
use std::io::Read;

fn account(input: &[u8], path: PathBits) -> Result<Account, Refusal> {
    let block = examine(input)?;
    let plan = Plan::try_from(&block.plan.request())?;
    let soft = soft_values(&plan, block.fields.values.body)?;
    let bits = path.count.min(plan.length());
    Ok(Account {
        plan,
        soft,
        row: path.row,
        bits,
    })
}

fn run(rt: &HostRuntime) -> anyhow::Result<()> {
    let mut input = Vec::new(rt.alloc());
    rt.stdin().read_to_end(&mut input)?;
    let mut args = env::args(rt)?;
    let _ = args.next();
    let text = args.next().context("name the bits of a path, as 0010")?;
    let path: PathBits = text.parse()?;
    match account(input.as_slice(), path) {
        Ok(account) => rt.print(account)?,
        Err(fault) => println!(rt; "fault {fault}")?,
    }
    Ok(())
}

fn main(rt: HostRuntime) -> anyhow::Result<()> {
    run(&rt)
}
