// Of which position of which path scratch holds the levels of decision values. Assumes nothing.
use bits::Row;

#[derive(Clone, Copy)]
pub struct Memo {
    pub path: Row,
    pub at: usize,
}
