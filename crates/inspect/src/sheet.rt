// The checklist of a block file as values. Assumes nothing.
ghost use Rattle.std.specs.Prelude.{◌≡◌};
ghost use Rattle.inspect.specs.Sheets.{SheetOf, counted_soft, granted_soft};

use base::Refusal;
use block::{Due, PlanNumbers, SearchNumbers, examine, field_at, numbers_at};
use plan::Plan;

// Line A: the soft values in a file against those that its plan grants.
#[derive(Clone, Copy, PartialEq, Eq, Debug)]
pub struct SoftCount {
    pub present: usize,
    pub granted: usize,
}

// What is read off a block file that is sound and whose plan is made; line B is the plan.
#[derive(Drop)]
pub struct Sheet {
    pub plan: Plan,
    pub numbers: PlanNumbers,
    pub limits: SearchNumbers,
    pub soft: SoftCount,
}

// What can be told of a block file that is refused.
#[derive(Clone, Copy, PartialEq, Eq, Debug)]
pub enum BadSheet {
    // the file is refused; the count is there where the first two fields are sound
    File {
        fault: Refusal,
        soft: Option<SoftCount>,
    },
    // the file is sound and its plan is refused
    Plan {
        fault: Refusal,
        numbers: PlanNumbers,
        soft: SoftCount,
    },
}

// Reads the checklist off a block file.
pub fn inspect(input: &[u8]) -> Result<Sheet, BadSheet>
    ensures { SheetOf input.now result }
{
    let block = examine(input).map_err(|fault| BadSheet::File {
        fault,
        soft: counted_soft(input),
    })?;
    let numbers = block.plan;
    let soft = soft_count(input, &numbers);
    match Plan::try_from(&numbers.request()) {
        Ok(plan) => Ok(Sheet {
            plan,
            numbers,
            limits: block.search,
            soft,
        }),
        Err(fault) => Err(BadSheet::Plan {
            fault,
            numbers,
            soft,
        }),
    }
}

// The bytes before the first value: two whole fields and a header.
const HEADERS: usize = 27;

// Line A of a file whose plan field holds these numbers.
fn soft_count(input: &[u8], numbers: &PlanNumbers) -> SoftCount
    ensures { result ≡ granted_soft input.now numbers.now.sent }
{
    SoftCount {
        present: input.len().saturating_sub(HEADERS) / 2,
        granted: usize::from(numbers.sent),
    }
}

// Line A of a file that is refused, as far as it can be told.
fn counted_soft(input: &[u8]) -> Option<SoftCount>
    ensures { result ≡ counted_soft input.now }
{
    let (_, numbers) = numbers_at::<PlanNumbers>(input, 0).ok()?;
    field_at(input, 12, Due::Search).ok()?;
    Some(soft_count(input, &numbers))
}
