// Makes one call of any store. Assumes nothing.
ghost use Rattle.std.specs.Prelude.{◌≡◌};
ghost use Rattle.storecalls.specs.Plays.{state_of, played, answered};

use crate::call::{Answer, Call};
use store::Store;

pub fn play<S: Store>(store: &mut S, call: Call) -> Answer
    ensures state { state_of S.kept S.capacity S.floor store.new ≡ played call (state_of S.kept S.capacity S.floor store.old) }
    ensures answer { result ≡ answered call (state_of S.kept S.capacity S.floor store.old) }
{
    match call {
        Call::Empty(wanted) => {
            store.empty(wanted);
            Answer::Done
        }
        Call::Put(c) => {
            store.put(c);
            Answer::Done
        }
        Call::Take => Answer::Taken(store.take()),
        Call::Count => Answer::Number(store.count()),
        Call::Capacity => Answer::Number(store.capacity()),
        Call::FirstMetric => Answer::Metric(store.first_metric()),
        Call::Floor => Answer::Metric(store.floor()),
        Call::HoldsRow(row) => Answer::Held(store.holds_row(row)),
    }
}
