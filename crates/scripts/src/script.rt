// The lines of one script as the calls of a decoder. Assumes nothing.
use crate::line::{call_of, load_of, soft};
use crate::refused::NoCall;
use replay::Call;
use std::alloc::{AllocError, Global};

// A call holds a whole plan: a line says only whether the next call is its own.
#[derive(Drop)]
pub struct Script {
    pub lines: Vec<Result<(), NoCall>>,
    // of the lines that make one, in turn
    pub calls: Vec<Call>,
    // the soft values of all loads
    pub values: Vec<i32>,
}

impl Script {
    pub fn read(heap: Global, lines: &[&str]) -> Result<Script, AllocError> {
        let mut script = Script {
            lines: Vec::new(heap),
            calls: Vec::new(heap),
            values: Vec::new(heap),
        };
        for line in lines {
            let words: Vec<&str> = line.split(' ').collect(heap)?;
            match words.as_slice() {
                ["load", rest @ ..] => script.add_load(rest)?,
                others => script.add(call_of(others))?,
            }
        }
        Ok(script)
    }

    // Takes down what a line comes to.
    fn add(&mut self, call: Result<Call, NoCall>) -> Result<(), AllocError> {
        let line = match call {
            Ok(call) => {
                self.calls.push(call)?;
                Ok(())
            }
            Err(reason) => Err(reason),
        };
        self.lines.push(line)?;
        Ok(())
    }

    fn add_load(&mut self, words: &[&str]) -> Result<(), AllocError> {
        match load_of(words, self.values.len()) {
            Ok(asked) => {
                self.add_values(asked.soft)?;
                self.add(Ok(asked.call))
            }
            Err(reason) => self.add(Err(reason)),
        }
    }

    fn add_values(&mut self, words: &[&str]) -> Result<(), AllocError> {
        for (value, count) in words.iter().filter_map(|each| soft(each).ok()) {
            for _ in 0..count {
                self.values.push(value)?;
            }
        }
        Ok(())
    }
}
