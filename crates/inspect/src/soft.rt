// What recovery makes of the values of a block file, place by place. Assumes nothing.
ghost use Rattle.std.specs.Prelude.{◌≡◌, ℕ, ◌<◌, length};
ghost use Rattle.block.specs.Fields.{received_at};
ghost use Rattle.code.specs.Recovery.{value_at};
ghost use Rattle.plan.specs.Plans.{block_length, sent_bits};
ghost use Rattle.inspect.specs.Softs.{Softens, SoftPlaces, SoftSheetOf};

use base::Refusal;
use block::{examine, received};
use code::recover;
use plan::Plan;

// E and N at most
const MOST_SENT: usize = 8192;

const MOST_PLACES: usize = 1024;

// Line C: a soft value for every place of the plan's block.
#[derive(Drop)]
pub struct SoftSheet {
    pub plan: Plan,
    pub llrs: [i32; MOST_PLACES],
}

// Why there is no line C.
#[derive(Clone, Copy, PartialEq, Eq, Debug)]
pub enum SoftFault {
    // the file or its plan is refused, so nothing is recovered
    Untold(Refusal),
    // a received value is beyond its limits
    BadValue(Refusal),
}

// Reads the received values out of a body.
fn unpack(body: &[u8], values: &mut [i16])
    ensures { (k : ℕ) → k < length values.old → value_at values.new k ≡ received_at body.now k }
{
    for (k, value) in values.iter_mut().enumerate() {
        *value = received(body, k);
    }
}

// Recovery of the received values in a body, with room for as many as are sent.
fn recover_from(
    plan: &Plan,
    body: &[u8],
    values: &mut [i16],
    llrs: &mut [i32],
) -> Result<(), Refusal>
    requires sent { length values.old ≡ sent_bits plan.now }
    requires block { length llrs.old ≡ block_length plan.now }
    ensures { Softens plan.now body.now result llrs.new }
{
    unpack(body, values);
    recover(plan, values, llrs)
}

// The soft values that the received values in a body make under a plan, or the refusal of recovery.
pub fn soft_places(plan: &Plan, body: &[u8]) -> Result<[i32; MOST_PLACES], Refusal>
    ensures { SoftPlaces plan.now body.now result }
{
    let mut values = [0; MOST_SENT];
    let values = &mut values[0..plan.sent_bits()];
    let mut llrs = [0; MOST_PLACES];
    recover_from(plan, body, values, &mut llrs[0..plan.length()])?;
    Ok(llrs)
}

// The soft values of a block file.
pub fn soft_sheet(input: &[u8]) -> Result<SoftSheet, SoftFault>
    ensures { SoftSheetOf input.now result }
{
    let block = examine(input).map_err(SoftFault::Untold)?;
    let plan = Plan::try_from(&block.plan.request()).map_err(SoftFault::Untold)?;
    let llrs = soft_places(&plan, block.fields.values.body).map_err(SoftFault::BadValue)?;
    Ok(SoftSheet { plan, llrs })
}
