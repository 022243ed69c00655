// One bit of a path: the decision value at its position, and what the bit costs there. Assumes nothing.
ghost use Rattle.ledger.specs.Entries.{EntryAt};

use bits::Row;
use cost::Soft;
use cost::value::contradiction;
use plan::Plan;

#[derive(Clone, Copy)]
pub struct BitEntry {
    pub value: i32,
    pub bit: bool,
    pub cost: u32,
}

// The entry of position i of the path in a row; none where the soft values are not of the plan's block or i is beyond it.
pub fn bit_entry(plan: &Plan, soft: &Soft, row: &Row, i: usize) -> Option<BitEntry>
    ensures { EntryAt plan.now soft.now row.now i result }
{
    if soft.n() != usize::from(plan.log_length()) || i >= plan.length() {
        return None;
    }
    let mut scratch = [0i32; 2048];
    let value = soft.decision(row, i, &mut scratch);
    let bit = row.get(i);
    Some(BitEntry {
        value,
        bit,
        cost: contradiction(value, bit),
    })
}
