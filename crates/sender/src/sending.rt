// From a request to its sent bits, with every step on the way. Assumes nothing.
mod laying;
mod spelling;

ghost use Rattle.sender.specs.Sends.{PlanIs, LaidIs, Sends};

use crate::failure::Failure;
use crate::request::Request;
use code::{Coded, Laid};
use laying::{laid_of, plan_of};
use plan::Plan;
use spelling::{finished_word, laid_bits, sent_bits};
use std::alloc::Global;

// What a sender does with a request.
#[derive(Drop)]
pub struct Sending {
    pub plan: Plan,
    // the payload, finished by its check
    pub finished: Vec<bool>,
    // a bit for every position
    pub laid: Vec<bool>,
    // a bit for every place
    pub code: Coded,
    // the sent bits, one to a byte
    pub sent: Vec<u8>,
}

// The steps from a request to its sent bits, or the first refusal.
pub fn send(heap: Global, request: &Request) -> Result<Sending, Failure>
    ensures { Sends request.now result }
{
    let plan = plan_of(request)?;
    let word = laid_of(&plan, request)?;
    spelled(heap, request, plan, word)
}

// The steps from a laid word on.
fn spelled(heap: Global, request: &Request, plan: Plan, word: Laid) -> Result<Sending, Failure>
    requires planned { PlanIs request.now plan }
    requires laid { LaidIs plan request.now word }
    ensures { Sends request.now result }
{
    let finished = finished_word(heap, request.plan.check, request.payload.as_slice())?;
    let laid = laid_bits(heap, &word, plan.length())?;
    let code = word.transform();
    let sent = sent_bits(heap, &plan, &code)?;
    Ok(Sending {
        plan,
        finished,
        laid,
        code,
        sent,
    })
}
