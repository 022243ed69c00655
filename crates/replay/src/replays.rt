// Plays calls one after the other, from a new decoder on. Assumes nothing.
ghost use Rattle.std.specs.Prelude.{◌≡◌, length, IfOk};
ghost use Rattle.replay.specs.Exact.{MetricsExact};
ghost use Rattle.replay.specs.Plays.{output_left, scratch_left};
ghost use Rattle.replay.specs.Replays.{KeepsPromise, answers_of, end_of, if_played, left_by, run_of};
ghost use Rattle.decoder.specs.States.{model_of, unloaded};

use crate::call::{Answer, Call};
use crate::plays::play;
use base::Refusal;
use decoder::Decoder;
use outer::Judge;
use std::alloc::{AllocError, Global};
use store::Store;

// Makes a decoder over a store, whatever that keeps, plays the calls and records every answer. Without memory for the
// record no call is made.
pub fn replay<S: Store, C: Judge>(
    heap: Global,
    store: S,
    check: C,
    calls: &[Call],
    values: &[i32],
    scratch: &mut [i32],
    output: &mut [u8],
) -> (
    Decoder<S, C>,
    Result<Vec<Result<Answer, Refusal>>, AllocError>,
)
    ensures answers { IfOk result.1 (λ answers. answers.items ≡ answers_of (run_of S.Store C.Judge store check values.now (length scratch.old) (length output.old) calls.now)) }
    ensures promise { KeepsPromise (run_of S.Store C.Judge store check values.now (length scratch.old) (length output.old) calls.now) }
    ensures exact { MetricsExact values.now calls.now (run_of S.Store C.Judge store check values.now (length scratch.old) (length output.old) calls.now) }
    ensures decoder { (model_of S.Store C.Judge result.0.state ≡ if_played result.1 (end_of (run_of S.Store C.Judge store check values.now (length scratch.old) (length output.old) calls.now)) (unloaded S.Store store)) × (result.0.state.check ≡ check) }
    ensures scratch { scratch.new ≡ if_played result.1 (left_by scratch_left (run_of S.Store C.Judge store check values.now (length scratch.old) (length output.old) calls.now) scratch.old) scratch.old }
    ensures output { output.new ≡ if_played result.1 (left_by output_left (run_of S.Store C.Judge store check values.now (length scratch.old) (length output.old) calls.now) output.old) output.old }
{
    let mut decoder = Decoder::new(store, check);
    let mut answers = match Vec::with_capacity(heap, calls.len()) {
        Ok(answers) => answers,
        Err(error) => return (decoder, Err(error)),
    };
    for call in calls {
        let answer = play(&mut decoder, *call, values, scratch, output);
        answers.push_reserved(answer);
    }
    (decoder, Ok(answers))
}
