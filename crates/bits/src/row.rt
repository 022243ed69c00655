// The row of packed bits. Assumes nothing.
ghost use Rattle.std.specs.Prelude.{◌≡◌, length};

mod access;
mod agreement;
mod transform;

const BITS: usize = 1024;

// 1,024 bits, 64 to a word, the lowest first: path bits, or code bits.
#[derive(Clone, Copy, Drop)]
pub struct Row {
    words: [u64; 16],
    ghost whole: { length words ≡ 16 },
}
