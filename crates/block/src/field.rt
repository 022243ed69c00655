// A field that has been read: which one, its body, and where it stands. Assumes nothing.
use crate::due::Due;

// The body is a part of the input; `at` is the offset of the field's tag.
#[derive(Clone, Copy)]
pub struct Field<'a> {
    pub due: Due,
    pub body: &'a [u8],
    pub at: usize,
}
