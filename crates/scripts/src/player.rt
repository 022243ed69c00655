// Plays a script on a decoder over its store and its check, and prints what comes of it. Assumes nothing.
use crate::numbers::LONGEST;
use crate::script::Script;
use crate::setup::Setup;
use crate::text::{KeptList, Told};
use base::Refusal;
use block::StoreCode;
use decoder::Decoder;
use heap::Heap;
use outer::Judge;
use replay::{Answer, Call, play, replay};
use std::io;
use store::{Store, Table};

// Prints the kept candidates, once a block was loaded: from then on a report is granted.
fn print_kept<S: Store + Copy, C: Judge>(
    rt: &HostRuntime,
    decoder: &Decoder<S, C>,
) -> io::Result<()> {
    if decoder.report().is_ok() {
        println!(rt; "{}", KeptList(decoder))?;
    }
    Ok(())
}

// Prints what a call answered, makes it on a second decoder, and prints what that then keeps.
fn print_call<S: Store + Copy, C: Judge>(
    rt: &HostRuntime,
    answer: &Result<Answer, Refusal>,
    decoder: &mut Decoder<S, C>,
    call: Call,
    values: &[i32],
) -> io::Result<()> {
    match answer {
        Ok(answer) => println!(rt; "{}", Told(answer))?,
        Err(refusal) => println!(rt; "fault {refusal}")?,
    }
    let mut scratch = [0; LONGEST];
    let mut output = [0; LONGEST];
    let _ = play(decoder, call, values, &mut scratch, &mut output);
    print_kept(rt, decoder)
}

// Prints the answers of a replay. What is kept after each call is not among them: hence the second decoder, which is
// new and over the same store.
fn print_played<S: Store + Copy, C: Judge>(
    rt: &HostRuntime,
    script: &Script,
    answers: &[Result<Answer, Refusal>],
    decoder: &mut Decoder<S, C>,
) -> io::Result<()> {
    let mut played = script.calls.iter().zip(answers);
    for line in &script.lines {
        match line {
            Err(reason) => println!(rt; "{reason}")?,
            Ok(()) => {
                if let Some((call, answer)) = played.next() {
                    print_call(rt, answer, decoder, *call, script.values.as_slice())?;
                }
            }
        }
    }
    Ok(())
}

fn play_over<S: Store + Copy>(
    rt: &HostRuntime,
    script: &Script,
    setup: Setup<'_>,
    mut store: S,
) -> io::Result<()> {
    setup.use_store(&mut store);
    let mut scratch = [0; LONGEST];
    let mut output = [0; LONGEST];
    let (_, answers) = replay(
        rt.alloc(),
        store,
        setup.check,
        script.calls.as_slice(),
        script.values.as_slice(),
        &mut scratch,
        &mut output,
    );
    let answers = answers?;
    let mut decoder = Decoder::new(store, setup.check);
    print_played(rt, script, answers.as_slice(), &mut decoder)
}

pub fn play_script(rt: &HostRuntime, setup: Setup<'_>, lines: &[&str]) -> io::Result<()> {
    let script = Script::read(rt.alloc(), lines)?;
    match setup.store {
        StoreCode::Table => play_over(rt, &script, setup, Table::new()),
        StoreCode::Heap => play_over(rt, &script, setup, Heap::new()),
    }
}
