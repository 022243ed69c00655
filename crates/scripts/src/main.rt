//! Plays scripts of decoder calls, one call to a line of standard input, and prints what each answers and what is then
//! kept.
#![tactic(auto)]

mod line;
mod numbers;
mod player;
mod refused;
mod script;
mod setup;
mod text;

use player::play_script;
use setup::Setup;
use std::io;

// The lines before the next script.
fn of_script<'a>(lines: &'a [&'a str]) -> &'a [&'a str] {
    let end = lines.iter().position(|line| Setup::read(line).is_ok());
    &lines[0..end.unwrap_or(lines.len())]
}

// Plays the scripts that the lines hold; what comes before the first is malformed.
fn play_all(rt: &HostRuntime, lines: &[&str]) -> io::Result<()> {
    // counted beside the lines: scripts are fewer
    let mut count = 0u64;
    for (k, line) in lines.iter().enumerate() {
        match Setup::read(line) {
            Ok(setup) => {
                count = count.saturating_add(1);
                println!(rt; "script {count}")?;
                let rest = &lines[k + 1..lines.len()];
                play_script(rt, setup, of_script(rest))?;
            }
            Err(reason) if count == 0 => println!(rt; "{reason}")?,
            Err(_) => {}
        }
    }
    Ok(())
}

fn main(rt: HostRuntime) -> io::Result<()> {
    let heap = rt.alloc();
    let input = io::read_to_string(heap, rt.stdin())?;
    let lines: Vec<&str> = input.as_str().split_terminator('\n').collect(heap)?;
    play_all(&rt, lines.as_slice())
}
