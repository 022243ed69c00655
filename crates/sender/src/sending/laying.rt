// The plan of a request, and its payload laid under it. Assumes nothing.
ghost use Rattle.sender.specs.Sends.{PlanFor, LaidFor};

use crate::request::Request;
use base::Refusal;
use code::Laid;
use plan::Plan;

// The plan that a request asks for.
pub fn plan_of(request: &Request) -> Result<Plan, Refusal>
    ensures { PlanFor request.now result }
{
    Plan::try_from(&request.plan.request())
}

// The laid word of a request under its plan.
pub fn laid_of(plan: &Plan, request: &Request) -> Result<Laid, Refusal>
    ensures { LaidFor plan.now request.now result }
{
    let mut word = Laid::fresh(plan);
    word.lay(&request.plan.check, request.payload.as_slice())?;
    Ok(word)
}
