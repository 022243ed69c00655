// Bits of slices of words: where two agree, and the transform of 2^t words. Assumes nothing.
ghost use Rattle.std.specs.Prelude.{◌≡◌, ℕ, suc, ◌+◌, ◌*◌, ◌%◌, ◌^◌, ◌<◌, ◌≤◌, length, slice_index};
ghost use Rattle.base.specs.Bits.{bit_of};
ghost use Rattle.base.specs.Transform.{code_bit};
ghost use Rattle.bits.specs.Blocks.{added_word, block_bit, words_bit};
ghost use Rattle.bits.specs.Row.{same_bits};

use crate::word;

// Whether the first n bits of both are the same.
pub fn agree(a: &[u64], b: &[u64], n: usize) -> bool
    requires long { length a.now ≡ length b.now }
    requires room { n ≤ 64 * length a.now }
    ensures { result ≡ same_bits (words_bit a.now) (words_bit b.now) n }
{
    let whole = n / 64;
    a[..whole] == b[..whole] && (whole == a.len() || word::same_low(a[whole], b[whole], n % 64))
}

// Transforms each word by itself.
fn transform_each(words: &mut [u64])
    ensures { (i : ℕ) → i < length words.old → (k : ℕ) → k < 64 → bit_of (slice_index words.new i) k ≡ block_bit 6 (bit_of (slice_index words.old i)) k }
{
    for x in words.iter_mut() {
        *x = word::transform_blocks(*x, 6);
    }
}

// Word i, with the word 2^s further up added where bit s of the index is 0.
fn added(words: &[u64], i: usize, s: usize) -> u64
    requires width { s < 64 }
    requires pairs { length words.now % 2 ^ suc s ≡ 0 }
    requires place { i < length words.now }
    ensures { result ≡ added_word s words.now i }
{
    if (i >> s) % 2 == 0 {
        words[i] ^ words[i + (1 << s)]
    } else {
        words[i]
    }
}

fn stage(words: &mut [u64], s: usize)
    requires width { s < 64 }
    requires pairs { length words.old % 2 ^ suc s ≡ 0 }
    ensures { (i : ℕ) → i < length words.old → slice_index words.new i ≡ added_word s words.old i }
{
    // By index: of words written through chunks_exact_mut and zip a proof knows only how many there are.
    for i in 0..words.len() {
        words[i] = added(words, i, s);
    }
}

pub fn transform(words: &mut [u64], t: usize)
    requires width { t ≤ 4 }
    requires whole { length words.old ≡ 2 ^ t }
    ensures { (i : ℕ) → i < 2 ^ (6 + t) → words_bit words.new i ≡ code_bit (6 + t) (words_bit words.old) i }
{
    transform_each(words);
    // s numbers the stages, which no list holds
    for s in 0..t {
        stage(words, s);
    }
}
