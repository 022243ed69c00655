// The calls that lines name. Assumes nothing.
use crate::numbers::{length, number, signed};
use crate::refused::NoCall;
use block::CheckCode;
use decoder::Limits;
use plan::{Plan, Request};
use replay::Call;

// A soft value, and how often it comes.
pub fn soft(text: &str) -> Result<(i32, usize), NoCall> {
    let (value, count) = text.split_once('x').unwrap_or((text, "1"));
    Ok((signed(value)?, length(count)?))
}

// How many soft values some words come to.
fn soft_count(words: &[&str]) -> Result<usize, NoCall> {
    let mut sum = 0usize;
    for each in words {
        let (_, count) = soft(each)?;
        sum = sum.checked_add(count).ok_or(NoCall::Malformed)?;
    }
    Ok(sum)
}

pub fn check_of(text: &str) -> Result<CheckCode, NoCall> {
    CheckCode::try_from(number::<u8>(text)?).map_err(|_| NoCall::Malformed)
}

fn request_of(words: [&str; 6]) -> Result<Request, NoCall> {
    let [check, n, payload, sent, low, parity] = words;
    let check = check_of(check)?;
    Ok(Request {
        n: number(n)?,
        payload: number(payload)?,
        sent: number(sent)?,
        low: number(low)?,
        parity: number(parity)?,
        check_bits: check.bits(),
        longest: check.longest(),
    })
}

fn limits_of(capacity: &str, failures: &str, steps: &str) -> Result<Limits, NoCall> {
    Ok(Limits {
        capacity: usize::from(number::<u8>(capacity)?),
        failures: u32::from(number::<u16>(failures)?),
        steps: number(steps)?,
    })
}

// A load, and the words of the soft values that it loads.
#[derive(Clone, Copy)]
pub struct Asked<'a> {
    pub call: Call,
    pub soft: &'a [&'a str],
}

// The words after `load`. The soft values begin at a place.
pub fn load_of<'a>(words: &'a [&'a str], at: usize) -> Result<Asked<'a>, NoCall> {
    let [
        check,
        n,
        payload,
        sent,
        low,
        parity,
        capacity,
        failures,
        steps,
        soft @ ..,
    ] = words
    else {
        return Err(NoCall::Malformed);
    };
    let request = request_of([check, n, payload, sent, low, parity])?;
    let limits = limits_of(capacity, failures, steps)?;
    let count = soft_count(soft)?;
    let plan = Plan::try_from(&request)?;
    let call = Call::Load {
        plan,
        at,
        count,
        limits,
    };
    Ok(Asked { call, soft })
}

// Any other call.
pub fn call_of(words: &[&str]) -> Result<Call, NoCall> {
    match words {
        ["advance", budget, scratch] => Ok(Call::Advance {
            budget: number(budget)?,
            scratch: length(scratch)?,
        }),
        ["strike"] => Ok(Call::Strike),
        ["word", output] => Ok(Call::Word {
            output: length(output)?,
        }),
        ["report"] => Ok(Call::Report),
        _ => Err(NoCall::Malformed),
    }
}
