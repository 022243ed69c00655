// Making a plan: the caller's place is written whole, or the request refused. Assumes nothing.
ghost use Rattle.std.specs.Prelude.{◌≡◌, Some, None, IfOk, IfErr};
ghost use Rattle.plan.specs.Plans.{Planned, Made, MadeOf, builtin_request};
ghost use Rattle.plan.specs.Requests.{verdict};

use crate::block_size::BlockSize;
use crate::choice::choose;
use crate::kind::Kind;
use crate::matching::Matching;
use crate::mode::Mode;
use crate::plan::Plan;
use crate::quota::Quota;
use crate::reliability::POSITIONS;
use crate::request::Request;
use base::Refusal;

impl Plan {
    // A lawful plan for a place that awaits one: one information position in a block of 32, all of it sent.
    pub fn builtin() -> Plan
        ensures { Planned builtin_request result }
    {
        let mut kinds = [Kind::Frozen; POSITIONS];
        kinds[31] = Kind::Information;
        let matching = Matching {
            size: BlockSize { n: 5 },
            sent: 32,
            mode: Mode::Repeat,
        };
        Plan {
            n: 5,
            payload: 1,
            check_bits: 0,
            sent: 32,
            low: 0,
            parity: 0,
            mode: Mode::Repeat,
            marks: matching.marks(),
            kinds,
        }
    }

    // Makes the plan that is asked for in this place, or answers why not and leaves the place as it was.
    pub fn make(&mut self, request: &Request) -> Result<(), Refusal>
        ensures { Made self.old request.now result self.new }
    {
        *self = Plan::of(request)?;
        Ok(())
    }

    // The plan that is asked for, by its parts.
    fn of(request: &Request) -> Result<Plan, Refusal>
        ensures planned { IfOk result (Planned request.now) }
        ensures granted { IfOk result (λ _. verdict request.now ≡ None) }
        ensures refused { IfErr result (λ refusal. verdict request.now ≡ Some refusal) }
    {
        if !request.within_limits() {
            return Err(Refusal::Limits);
        }
        let quota = Quota {
            word: request.payload + u16::from(request.check_bits),
            parity: request.parity,
        };
        let size = BlockSize { n: request.n };
        let matching = Matching::new(size, quota.word, request.sent);
        let marks = matching.marks();
        let kinds = choose(&marks, request.low as usize, quota).ok_or(Refusal::Crowded)?;
        Ok(Plan {
            n: request.n,
            payload: request.payload,
            check_bits: request.check_bits,
            sent: request.sent,
            low: request.low,
            parity: request.parity,
            mode: matching.mode,
            marks,
            kinds,
        })
    }
}

// The plan that is asked for, or why there is none.
impl TryFrom<&Request> for Plan {
    type Error = Refusal;

    ghost try_from_gives = { λ asked r. MadeOf asked.now r };

    fn try_from(asked: &Request) -> Result<Plan, Refusal> {
        Plan::of(asked)
    }
}
