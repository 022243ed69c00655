// The numbers that the fields of a block file hold, read out of their bodies. Assumes nothing.
ghost use Rattle.std.specs.Prelude.{◌≡◌, ℕ, List};
ghost use Rattle.block.specs.Fields.{NumbersRead, PlanHolds, SearchHolds, request_of};
ghost use Rattle.block.specs.declared.due.Due.{Due};
ghost use Rattle.block.specs.declared.due.Due.TheVariants.{Plan, Search};

use crate::code::{CheckCode, StoreCode};
use crate::due::Due;
use plan::Request;

// Numbers that a field holds.
pub trait Numbers: Copy {
    ghost DUE: { Due };

    ghost holds: { (body : List ℕ) → Self → Type 0 };

    // The field that holds them.
    const DUE: Due;

    // The numbers in a body; none where its length is not the field's or a code in it is not listed. No TryFrom:
    // an error would say no more than that, and the refusal needs the offset, which the caller has.
    fn read(body: &[u8]) -> Option<Self>
        ensures { NumbersRead DUE holds body.now result };
}

// What the plan field asks for.
#[derive(Clone, Copy, PartialEq, Eq, Debug)]
pub struct PlanNumbers {
    pub n: u8,
    pub payload: u16,
    pub sent: u16,
    pub low: u16,
    pub parity: u8,
    pub check: CheckCode,
}

// What the search field asks for.
#[derive(Clone, Copy, PartialEq, Eq, Debug)]
pub struct SearchNumbers {
    pub capacity: u8,
    pub store: StoreCode,
    pub failures: u16,
    pub steps: u32,
    pub words: u8,
}

impl Numbers for PlanNumbers {
    ghost DUE = { Plan };

    ghost holds = { PlanHolds };

    const DUE: Due = Due::Plan;

    fn read(body: &[u8]) -> Option<PlanNumbers> {
        let &[n, a1, a0, e1, e0, t1, t0, parity, code] = body else {
            return None;
        };
        let check = CheckCode::try_from(code).ok()?;
        Some(PlanNumbers {
            n,
            payload: u16::from_be_bytes([a1, a0]),
            sent: u16::from_be_bytes([e1, e0]),
            low: u16::from_be_bytes([t1, t0]),
            parity,
            check,
        })
    }
}

impl PlanNumbers {
    // The plan that these numbers ask for. No From: `Plan::try_from(&numbers.request())` says what is made.
    pub fn request(&self) -> Request
        ensures { result ≡ request_of self.now }
    {
        Request {
            n: self.n,
            payload: self.payload,
            sent: self.sent,
            low: self.low,
            parity: self.parity,
            check_bits: self.check.bits(),
            longest: self.check.longest(),
        }
    }
}

impl Numbers for SearchNumbers {
    ghost DUE = { Search };

    ghost holds = { SearchHolds };

    const DUE: Due = Due::Search;

    // No words wanted count as a code that is not listed.
    fn read(body: &[u8]) -> Option<SearchNumbers> {
        let &[capacity, code, c1, c0, t3, t2, t1, t0, words] = body else {
            return None;
        };
        let store = StoreCode::try_from(code).ok()?;
        if words == 0 {
            return None;
        }
        Some(SearchNumbers {
            capacity,
            store,
            failures: u16::from_be_bytes([c1, c0]),
            steps: u32::from_be_bytes([t3, t2, t1, t0]),
            words,
        })
    }
}
