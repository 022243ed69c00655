// Words by hand from the definitions of the checks, and every kind there and back. Assumes nothing.
use super::check::{Finish, Judge};
use super::misfit::Misfit;
use super::none::NoCheck;
use super::trailing::Trailing;
use crc::Spread;
use std::process::Abort;

#[test]
fn six_check_bits_of_one(rt: HostRuntime) {
    let mut word = [false; 7];
    assert!(rt; Trailing::Six.finish(&[true], &mut word).is_ok());
    assert!(rt; word == [true, true, false, false, false, false, true]);
    assert!(rt; !Trailing::Six.is_hopeless(1, &[false, true]));
    word[3] = true;
    assert!(rt; !Trailing::Six.accepts(1, &word));
}

#[test]
fn four_spread_check_bits(rt: HostRuntime) {
    let payload = [true, false, false, false, false, false, false, false];
    let mut word = [false; 12];
    assert!(rt; Spread::Four.finish(&payload, &mut word).is_ok());
    assert!(rt;
        word == [
            true, false, false, true, false, false, false, false, false, true, false, false,
        ]
    );
    assert!(rt; Spread::Four.is_hopeless(8, &[true, false, false, false]));
    assert!(rt; !Spread::Four.is_hopeless(8, &[true, false, false]));
    assert!(rt; !Spread::Four.is_hopeless(9, &[true, false, false, false]));
}

// Finishes a payload, judges the word, reads it back, and judges it for a payload of another length.
fn there_and_back<C: Finish>(
    rt: &impl Abort,
    kind: &C,
    payload: &[bool],
    word: &mut [bool],
    back: &mut [bool],
) {
    let a = payload.len();
    assert!(rt; kind.finish(payload, word).is_ok());
    assert!(rt; kind.accepts(a, word));
    assert!(rt; !kind.is_hopeless(a, word));
    assert!(rt; kind.read(word, back).is_ok());
    let back: &[bool] = back;
    assert!(rt; payload == back);
    assert!(rt; !kind.accepts(a / 2, word));
}

#[test]
fn no_check_there_and_back(rt: HostRuntime) {
    there_and_back(&rt, &NoCheck, &[true], &mut [false; 1], &mut [false; 1]);
    there_and_back(
        &rt,
        &NoCheck,
        &[true; 512],
        &mut [false; 512],
        &mut [false; 512],
    );
    assert!(rt; NoCheck.finish(&[true; 513], &mut [false; 513]) == Err(Misfit));
}

#[test]
fn trailing_there_and_back(rt: HostRuntime) {
    there_and_back(
        &rt,
        &Trailing::Six,
        &[true; 512],
        &mut [false; 518],
        &mut [false; 512],
    );
    there_and_back(
        &rt,
        &Trailing::Eleven,
        &[true],
        &mut [false; 12],
        &mut [false; 1],
    );
    there_and_back(
        &rt,
        &Trailing::Eleven,
        &[true; 300],
        &mut [false; 311],
        &mut [false; 300],
    );
}

#[test]
fn spread_there_and_back(rt: HostRuntime) {
    there_and_back(
        &rt,
        &Spread::Four,
        &[true; 7],
        &mut [false; 11],
        &mut [false; 7],
    );
    there_and_back(
        &rt,
        &Spread::TwentyFour,
        &[true],
        &mut [false; 25],
        &mut [false; 1],
    );
    there_and_back(
        &rt,
        &Spread::TwentyFour,
        &[true; 75],
        &mut [false; 99],
        &mut [false; 75],
    );
    there_and_back(
        &rt,
        &Spread::TwentyFour,
        &[true; 140],
        &mut [false; 164],
        &mut [false; 140],
    );
}
