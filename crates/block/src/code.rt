// The codes by which a block file names an outer check and a candidate store. Assumes nothing.
ghost use Rattle.std.specs.Prelude.{◌≡◌, Some};
ghost use Rattle.block.specs.Codes.{Named, check_of, store_of, check_code, store_code, check_bits, longest_payload, check_name, store_name};

use crate::unlisted::Unlisted;
use std::fmt;

// The outer checks, by their codes.
#[derive(Clone, Copy, PartialEq, Eq, Debug)]
pub enum CheckCode {
    // 0
    None,
    // 6
    Trailing6,
    // 11
    Trailing11,
    // 4
    Spread4,
    // 24
    Spread24,
}

impl CheckCode {
    // The number of check bits.
    pub fn bits(self) -> u8
        ensures { result ≡ check_bits self }
    {
        match self {
            CheckCode::None => 0,
            CheckCode::Trailing6 => 6,
            CheckCode::Trailing11 => 11,
            CheckCode::Spread4 => 4,
            CheckCode::Spread24 => 24,
        }
    }

    // The longest payload that the check takes.
    pub fn longest(self) -> u16
        ensures { result ≡ longest_payload self }
    {
        match self {
            CheckCode::None | CheckCode::Trailing6 | CheckCode::Trailing11 => 512,
            CheckCode::Spread4 => 8,
            CheckCode::Spread24 => 140,
        }
    }
}

impl TryFrom<u8> for CheckCode {
    type Error = Unlisted;

    ghost try_from_gives = { Named check_of };

    fn try_from(code: u8) -> Result<CheckCode, Unlisted> {
        match code {
            0 => Ok(CheckCode::None),
            6 => Ok(CheckCode::Trailing6),
            11 => Ok(CheckCode::Trailing11),
            4 => Ok(CheckCode::Spread4),
            24 => Ok(CheckCode::Spread24),
            _ => Err(Unlisted(code)),
        }
    }
}

// The code of a check is the number of its bits.
impl From<CheckCode> for u8 {
    ghost from_gives = { λ check code. code ≡ check_code check };

    fn from(check: CheckCode) -> u8 {
        check.bits()
    }
}

impl fmt::Display for CheckCode {
    ghost output = { λ check. Some (check_name check) };

    fn fmt<W: fmt::Write>(&self, f: &mut fmt::Formatter<W>) -> fmt::Result {
        f.write_str(match self {
            CheckCode::None => "none",
            CheckCode::Trailing6 => "trailing, 6 bits",
            CheckCode::Trailing11 => "trailing, 11 bits",
            CheckCode::Spread4 => "spread, 4 bits",
            CheckCode::Spread24 => "spread, 24 bits",
        })
    }
}

// The candidate stores, by their codes.
#[derive(Clone, Copy, PartialEq, Eq, Debug)]
pub enum StoreCode {
    // 0
    Table,
    // 1
    Heap,
}

impl TryFrom<u8> for StoreCode {
    type Error = Unlisted;

    ghost try_from_gives = { Named store_of };

    fn try_from(code: u8) -> Result<StoreCode, Unlisted> {
        match code {
            0 => Ok(StoreCode::Table),
            1 => Ok(StoreCode::Heap),
            _ => Err(Unlisted(code)),
        }
    }
}

impl From<StoreCode> for u8 {
    ghost from_gives = { λ store code. code ≡ store_code store };

    fn from(store: StoreCode) -> u8 {
        match store {
            StoreCode::Table => 0,
            StoreCode::Heap => 1,
        }
    }
}

impl fmt::Display for StoreCode {
    ghost output = { λ store. Some (store_name store) };

    fn fmt<W: fmt::Write>(&self, f: &mut fmt::Formatter<W>) -> fmt::Result {
        f.write_str(match self {
            StoreCode::Table => "table",
            StoreCode::Heap => "heap",
        })
    }
}
