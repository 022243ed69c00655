// The choice of information and parity positions among those that are open. Assumes nothing.
ghost use Rattle.std.specs.Prelude.{◌≡◌, ℕ, ◌+◌, IfSome, is_none, nat_lt, slice_index_or};
ghost use Rattle.plan.specs.declared.kind.Kind.TheVariants.{Frozen};
ghost use Rattle.plan.specs.Kinds.{kind_by, open_count};
ghost use Rattle.plan.specs.Order.{barred_in};
ghost use Rattle.plan.specs.Reliability.{more_reliable};

use crate::kind::Kind;
use crate::quota::Quota;
use crate::reliability::{LADDER, POSITIONS};

// Walks the positions from the most reliable down: the open ones among them come in the order of their ranks.
// No choice is made if fewer are open than the quota asks for.
pub fn choose(marks: &[bool; POSITIONS], low: usize, quota: Quota) -> Option<[Kind; POSITIONS]>
    ensures chosen { IfSome result (λ kinds. (i : ℕ) → slice_index_or kinds i Frozen ≡ kind_by more_reliable (barred_in marks.now low) 1024 quota.word quota.parity i) }
    ensures none { is_none result ≡ nat_lt (open_count (barred_in marks.now low) 1024) (quota.word + quota.parity) }
{
    let mut kinds = [Kind::Frozen; POSITIONS];
    // the rank of the next open position; it is counted beside the walk, for its last value says how many are open
    let mut open = 0;
    for &i in LADDER.iter().rev() {
        let i = i as usize;
        if marks[i] && i >= low {
            kinds[i] = quota.kind_of_rank(open);
            open += 1;
        }
    }
    (open >= quota.total()).then_some(kinds)
}
