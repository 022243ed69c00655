// Makes one call of a decoder. Assumes nothing.
ghost use Rattle.std.specs.Prelude.{◌≡◌, length, take, drop};
ghost use Rattle.decoder.specs.Answers.{KeptIfRefused};
ghost use Rattle.replay.specs.Plays.{call_of, heard, output_left, scratch_left};
ghost use Rattle.decoder.specs.States.{model_of};
ghost use Rattle.search.specs.Calls as search;
ghost use Rattle.search.specs.Search.{called};
ghost use Rattle.search.specs.Stores.{ruled};

use crate::call::{Answer, Call};
use crate::payload::Payload;
use base::Refusal;
use decoder::Decoder;
use outer::Judge;
use store::Store;

// So many of the values from a place on, as far as there are.
fn part(values: &[i32], at: usize, count: usize) -> &[i32]
    ensures { result.now ≡ take count (drop at values.now) }
{
    let rest = &values[at.min(values.len())..values.len()];
    &rest[0..count.min(rest.len())]
}

// An advance with all of scratch.
fn play_advance<S: Store, C: Judge>(
    decoder: &mut Decoder<S, C>,
    budget: u32,
    scratch: &mut [i32],
) -> Result<Answer, Refusal>
    ensures model { model_of S.Store C.Judge decoder.new.state ≡ (called ruled (model_of S.Store C.Judge decoder.old.state) (search.Advance budget (length scratch.old))).0 }
    ensures answer { result ≡ heard (called ruled (model_of S.Store C.Judge decoder.old.state) (search.Advance budget (length scratch.old))).1 }
    ensures check { decoder.new.state.check ≡ decoder.old.state.check }
    ensures scratch { scratch.new ≡ scratch_left (model_of S.Store C.Judge decoder.old.state) (called ruled (model_of S.Store C.Judge decoder.old.state) (search.Advance budget (length scratch.old))).1 scratch.old }
    ensures refused { (KeptIfRefused result decoder.old decoder.new) × (KeptIfRefused result scratch.old scratch.new) }
{
    let (met, report) = decoder.advance(budget, scratch)?;
    Ok(Answer::Advanced(met, report))
}

// A word call with all of output.
fn play_word<S: Store, C: Judge>(
    decoder: &Decoder<S, C>,
    output: &mut [u8],
) -> Result<Answer, Refusal>
    ensures answer { result ≡ heard (called ruled (model_of S.Store C.Judge decoder.now.state) (search.Word (length output.old))).1 }
    ensures output { output.new ≡ output_left (model_of S.Store C.Judge decoder.now.state) (called ruled (model_of S.Store C.Judge decoder.now.state) (search.Word (length output.old))).1 output.old }
    ensures refused { KeptIfRefused result output.old output.new }
{
    decoder.word(output)?;
    Ok(Answer::Payload(Payload::new(output)))
}

// Makes the call, with the parts that it names of what there is, as far as they are there.
pub fn play<S: Store, C: Judge>(
    decoder: &mut Decoder<S, C>,
    call: Call,
    values: &[i32],
    scratch: &mut [i32],
    output: &mut [u8],
) -> Result<Answer, Refusal>
    ensures model { model_of S.Store C.Judge decoder.new.state ≡ (called ruled (model_of S.Store C.Judge decoder.old.state) (call_of C.Judge decoder.old.state.check values.now (length scratch.old) (length output.old) call)).0 }
    ensures answer { result ≡ heard (called ruled (model_of S.Store C.Judge decoder.old.state) (call_of C.Judge decoder.old.state.check values.now (length scratch.old) (length output.old) call)).1 }
    ensures check { decoder.new.state.check ≡ decoder.old.state.check }
    ensures scratch { scratch.new ≡ scratch_left (model_of S.Store C.Judge decoder.old.state) (called ruled (model_of S.Store C.Judge decoder.old.state) (call_of C.Judge decoder.old.state.check values.now (length scratch.old) (length output.old) call)).1 scratch.old }
    ensures output { output.new ≡ output_left (model_of S.Store C.Judge decoder.old.state) (called ruled (model_of S.Store C.Judge decoder.old.state) (call_of C.Judge decoder.old.state.check values.now (length scratch.old) (length output.old) call)).1 output.old }
    ensures refused { (KeptIfRefused result decoder.old decoder.new) × ((KeptIfRefused result scratch.old scratch.new) × (KeptIfRefused result output.old output.new)) }
{
    match call {
        Call::Report => decoder.report().map(Answer::Reported),
        Call::Strike => decoder.strike().map(Answer::Reported),
        Call::Load {
            plan,
            at,
            count,
            limits,
        } => decoder
            .load(&plan, part(values, at, count), limits)
            .map(Answer::Reported),
        Call::Advance {
            budget,
            scratch: words,
        } => {
            let room = words.min(scratch.len());
            play_advance(decoder, budget, &mut scratch[0..room])
        }
        Call::Word { output: bytes } => {
            let room = bytes.min(output.len());
            play_word(decoder, &mut output[0..room])
        }
    }
}
