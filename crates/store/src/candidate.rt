// A candidate of the search, and which of two comes first. Assumes nothing.
ghost use Rattle.std.specs.Cmp.{partial_order_from_own_ties};
ghost use Rattle.std.specs.Cmp.Rules.{comparing};
ghost use Rattle.std.specs.Ordering.{as_partial_cmp};
ghost use Rattle.std.specs.Prelude.{◌≡◌, Some};
ghost use Rattle.std.proofs.Common.{rules};
ghost use Rattle.store.specs.Order.{before, compared};
ghost use Rattle.store.specs.Texts.{candidate_text};

use std::cmp::Ordering;
use std::fmt;

// A path that waits to be taken.
#[derive(Clone, Copy, PartialEq, Eq, Debug)]
pub struct Candidate {
    // what the path costs: below 2^30
    pub metric: u32,
    // how many bits the path has: at most 1,024
    pub length: u16,
    // the number of its put: at most 2 * 16,777,216 + 1
    pub serial: u32,
    // the row that holds the path's bits: at most 128
    pub row: u8,
}

impl Candidate {
    pub fn before(&self, other: &Candidate) -> bool
        ensures result { result ≡ before self.now other.now }
    {
        if self.metric != other.metric {
            return self.metric < other.metric;
        }
        if self.length != other.length {
            return self.length > other.length;
        }
        if self.serial != other.serial {
            return self.serial < other.serial;
        }
        self.row < other.row
    }
}

impl Ord for Candidate {
    ghost cmp = { compared };

    ghost total = { Prim.search (comparing, rules) };

    ghost matches_partial_cmp = { Prim.search (comparing, rules) };

    ghost matches_eq = { Prim.search (comparing, rules) };

    fn cmp(&self, other: &Candidate) -> Ordering {
        self.metric
            .cmp(&other.metric)
            .then_with(|| other.length.cmp(&self.length))
            .then_with(|| self.serial.cmp(&other.serial))
            .then_with(|| self.row.cmp(&other.row))
    }
}

impl PartialOrd for Candidate {
    ghost partial_cmp = { as_partial_cmp compared };

    ghost laws = { partial_order_from_own_ties (Prim.search (comparing, rules) depth 9) (Prim.search (comparing, rules) depth 9) };

    fn partial_cmp(&self, other: &Candidate) -> Option<Ordering> {
        Some(self.cmp(other))
    }
}

impl fmt::Display for Candidate {
    ghost output = { λ c. Some (candidate_text c) };

    fn fmt<W: fmt::Write>(&self, f: &mut fmt::Formatter<W>) -> fmt::Result {
        write!(
            f,
            "{}:{}:{}:{}",
            self.metric, self.length, self.serial, self.row
        )
    }
}
