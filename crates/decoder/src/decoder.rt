// The decoder over any store and any check. Assumes nothing.
mod advance;
mod load;
mod report;
mod shown;

ghost use Rattle.decoder.specs.Single.{Coherent-prop};
ghost use Rattle.decoder.specs.States.{Coherent};

use crate::state::State;
use outer::Judge;
use store::Store;

#[derive(Drop)]
pub struct Decoder<S: Store, C: Judge> {
    state: State<S, C>,
    ghost coherent: { Coherent S.Store C.Judge state } by { Coherent-prop S.Store C.Judge state },
}
