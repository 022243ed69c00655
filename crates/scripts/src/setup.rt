// The line that begins a script: a store, perhaps used before, and a check. Assumes nothing.
use crate::line::check_of;
use crate::numbers::number;
use crate::refused::NoCall;
use block::{CheckCode, StoreCode};
use store::{Candidate, Store};

#[derive(Clone, Copy)]
pub struct Setup<'a> {
    pub store: StoreCode,
    pub check: CheckCode,
    // how the store was used before, if it was
    used: Option<Usage<'a>>,
}

// A store was emptied to a capacity, and candidates were put into it.
#[derive(Clone, Copy)]
struct Usage<'a> {
    capacity: u8,
    // as they stand in the line, set apart by spaces; all of them are well formed
    candidates: Option<&'a str>,
}

fn store_of(name: &str) -> Result<StoreCode, NoCall> {
    match name {
        "table" => Ok(StoreCode::Table),
        "heap" => Ok(StoreCode::Heap),
        _ => Err(NoCall::Malformed),
    }
}

// The parts of a text before and after the first of a mark.
fn parts(text: &str, mark: char) -> Result<(&str, &str), NoCall> {
    text.split_once(mark).ok_or(NoCall::Malformed)
}

// Numbers of a script, set apart by colons; a list of store calls has words, read as std reads numbers.
fn candidate(text: &str) -> Result<Candidate, NoCall> {
    let (metric, rest) = parts(text, ':')?;
    let (length, rest) = parts(rest, ':')?;
    let (serial, row) = parts(rest, ':')?;
    Ok(Candidate {
        metric: number(metric)?,
        length: number(length)?,
        serial: number(serial)?,
        row: number(row)?,
    })
}

// A text, and what follows its first space.
fn first_part(text: &str) -> (&str, Option<&str>) {
    text.split_once(' ')
        .map_or((text, None), |(first, rest)| (first, Some(rest)))
}

fn usage_of(text: &str) -> Result<Usage<'_>, NoCall> {
    let (capacity, candidates) = first_part(text);
    let capacity = number(capacity)?;
    if let Some(list) = candidates {
        for each in list.split(' ') {
            candidate(each)?;
        }
    }
    Ok(Usage {
        capacity,
        candidates,
    })
}

impl Setup<'_> {
    // What a line sets up; an error where it begins no script.
    pub fn read(line: &str) -> Result<Setup<'_>, NoCall> {
        let rest = line.strip_prefix("new ").ok_or(NoCall::Malformed)?;
        let (store, rest) = parts(rest, ' ')?;
        let store = store_of(store)?;
        let (check, rest) = first_part(rest);
        let check = check_of(check)?;
        let used = rest.map(usage_of).transpose()?;
        Ok(Setup { store, check, used })
    }

    // Uses a new store as the line says.
    pub fn use_store<S: Store>(&self, store: &mut S) {
        let Some(used) = self.used else {
            return;
        };
        store.empty(usize::from(used.capacity));
        let Some(list) = used.candidates else {
            return;
        };
        for c in list.split(' ').filter_map(|each| candidate(each).ok()) {
            store.put(c);
        }
    }
}
