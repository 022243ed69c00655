// The limits of a search. Assumes nothing.
mod test;

// What a load is handed beside its block.
#[derive(Clone, Copy, PartialEq, Eq, Debug)]
pub struct Limits {
    // S: how many candidates may be kept, 2 to 128
    pub capacity: usize,
    // C: the failed checks at which the search gives up, 1 to 64
    pub failures: u32,
    // T: the steps at which it gives up, 1 to 16,777,216
    pub steps: u32,
}
