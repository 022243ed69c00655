// The ledger as text. Tested, not proved: that it is written, and not what.
use crate::entry::{BitEntry, bit_entry};
use bits::Row;
use cost::Soft;
use cost::value::contradiction;
use plan::{Kind, Plan};
use std::fmt;

// A path of some bits under a block's plan and soft values.
#[derive(Drop)]
pub struct Account {
    pub plan: Plan,
    pub soft: Soft,
    pub row: Row,
    pub bits: usize,
}

impl fmt::Display for Account {
    fn fmt<W: fmt::Write>(&self, f: &mut fmt::Formatter<W>) -> fmt::Result {
        let cost = write_bits(f, self)?;
        writeln!(f, "path cost {cost}")?;
        if self.bits == self.plan.length() {
            write_codeword(f, self)
        } else {
            Ok(())
        }
    }
}

// A line for each bit with the sum so far, which a loop carries from line to line; answers the sum.
fn write_bits<W: fmt::Write>(
    f: &mut fmt::Formatter<W>,
    account: &Account,
) -> Result<u32, fmt::Error> {
    let mut sum = 0u32;
    for i in 0..account.bits {
        let Some(entry) = bit_entry(&account.plan, &account.soft, &account.row, i) else {
            break;
        };
        let kind = account.plan.kind(i);
        let BitEntry { value, bit, cost } = entry;
        let bit = u8::from(bit);
        sum = sum.saturating_add(cost);
        writeln!(
            f,
            "position {i} {kind}: value {value}, bit {bit} costs {cost}, sum {sum}"
        )?;
    }
    Ok(sum)
}

// A line for each place whose soft value the codeword contradicts, and the sum.
fn write_codeword<W: fmt::Write>(f: &mut fmt::Formatter<W>, account: &Account) -> fmt::Result {
    let mut code = account.row;
    code.transform(usize::from(account.plan.log_length()));
    let length = account.plan.length();
    let by = |i: usize| contradiction(account.soft.llr(i), code.get(i));
    for i in (0..length).filter(|i| by(*i) > 0) {
        let bit = u8::from(code.get(i));
        let llr = account.soft.llr(i);
        let by = by(i);
        writeln!(f, "place {i}: code bit {bit} contradicts {llr} by {by}")?;
    }
    let sum = (0..length).fold(0u32, |sum, i| sum.saturating_add(by(i)));
    writeln!(f, "codeword contradicts {sum}")
}
