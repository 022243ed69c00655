// A path as a text spells it: its bits in a row, and how many they are. Tested by running, not proved.
use bits::Row;
use std::error::Error;
use std::fmt;
use std::str::FromStr;

#[derive(Clone, Copy)]
pub struct PathBits {
    pub row: Row,
    pub count: usize,
}

// A text that spells no path.
#[derive(Clone, Copy, PartialEq, Eq, Debug)]
pub struct NotBits;

impl fmt::Display for NotBits {
    fn fmt<W: fmt::Write>(&self, f: &mut fmt::Formatter<W>) -> fmt::Result {
        f.write_str("a path is noughts and ones")
    }
}

impl Error for NotBits {}

impl FromStr for PathBits {
    type Err = NotBits;

    fn from_str(text: &str) -> Result<PathBits, NotBits> {
        let mut row = Row::zero();
        for (k, c) in text.bytes().enumerate() {
            match c {
                b'0' => {}
                b'1' => row.set(k, true),
                _ => return Err(NotBits),
            }
        }
        Ok(PathBits {
            row,
            count: text.len(),
        })
    }
}
