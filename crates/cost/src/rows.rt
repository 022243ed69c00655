// The rows of path bits that the search keeps. Assumes nothing.
use bits::Row;

mod access;

// One more than there are candidates, so that one is always free.
const COUNT: usize = 129;

#[derive(Clone, Copy, Drop)]
pub struct Rows {
    rows: [Row; COUNT],
}
