// The soft values that a block file's received values make under a plan. Assumes nothing.
ghost use Rattle.std.specs.Prelude.{◌≡◌, ◌≢◌, ℕ, ◌/◌, ◌<◌, length, IfOk, IfErr, IfSome};
ghost use Rattle.plan.specs.Plans.{log_length, block_length, sent_bits};
ghost use Rattle.block.specs.Fields.{received_at};
ghost use Rattle.code.specs.Recovery.{soft_at};
ghost use Rattle.cost.specs.Block.{llr_of, size_of};
ghost use Rattle.inspect.specs.Softs.{values_verdict};
ghost use Rattle.ledger.specs.Softs.{IsFirstBeyond};

use base::Refusal;
use cost::{Soft, first_beyond};
use inspect::soft_places;
use plan::Plan;

// The soft values that the received values in a body make under a plan; beyond their limits they are refused as a
// load refuses them.
pub fn soft_values(plan: &Plan, body: &[u8]) -> Result<Soft, Refusal>
    ensures size { IfOk result (λ soft. size_of soft ≡ log_length plan.now) }
    ensures counted { length body.now / 2 ≢ sent_bits plan.now → result ≡ Err Refusal.ReceivedLength }
    ensures valued { length body.now / 2 ≡ sent_bits plan.now → IfSome (values_verdict plan.now body.now) (λ e. result ≡ Err e) }
    ensures limited { length body.now / 2 ≡ sent_bits plan.now → values_verdict plan.now body.now ≡ None → IfErr result (IsFirstBeyond plan.now body.now) }
    ensures values { IfOk result (λ soft. (k : ℕ) → k < block_length plan.now → llr_of soft k ≡ soft_at plan.now (received_at body.now) k) }
{
    if body.len() / 2 != plan.sent_bits() {
        return Err(Refusal::ReceivedLength);
    }
    let llrs = soft_places(plan, body)?;
    let llrs = &llrs[..plan.length()];
    Soft::new(usize::from(plan.log_length()), llrs).ok_or_else(|| Refusal::Block {
        at: first_beyond(llrs).unwrap_or(0),
    })
}
