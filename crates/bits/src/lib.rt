//! Up to 1,024 bits packed in words, and the polar transform of them by masks and shifts.
#![tactic(auto)]

mod laws;
mod row;
mod word;
mod words;

pub use laws::{one_of_32, transform_by_halves};
pub use row::Row;

// Published transforms at 4, 8 and 16 bits, and single ones in long rows by hand.
#[cfg(test)]
mod tests {
    use crate::Row;
    use std::process::Abort;

    // The row that a text of noughts and ones begins with.
    fn row_of(text: &[u8]) -> Row {
        let mut row = Row::zero();
        for (k, c) in text.iter().enumerate() {
            row.set(k, *c == b'1');
        }
        row
    }

    fn check_bits(rt: &impl Abort, row: &Row, base: usize, text: &[u8]) {
        for (k, c) in text.iter().enumerate() {
            assert_eq!(rt; row.get(base.wrapping_add(k)), *c == b'1');
        }
    }

    fn check_transform(rt: &impl Abort, n: usize, text: &[u8], code: &[u8]) {
        let mut row = row_of(text);
        row.transform(n);
        check_bits(rt, &row, 0, code);
    }

    #[test]
    fn published_4(rt: HostRuntime) {
        check_transform(&rt, 2, b"1000", b"1000");
        check_transform(&rt, 2, b"0100", b"1100");
        check_transform(&rt, 2, b"0010", b"1010");
        check_transform(&rt, 2, b"0001", b"1111");
    }

    #[test]
    fn published_8_and_16(rt: HostRuntime) {
        check_transform(&rt, 3, b"00000100", b"11001100");
        check_transform(&rt, 4, b"0000010000000000", b"1100110000000000");
        check_transform(&rt, 4, b"0000000000100000", b"1010000010100000");
        check_transform(&rt, 4, b"0000010000100000", b"0110110010100000");
    }

    // The block of bits 16 to 31 alone.
    #[test]
    fn block_in_word(rt: HostRuntime) {
        let mut row = row_of(b"0000010000000000000001000000000000000100");
        row.transform_block(16, 4);
        check_bits(&rt, &row, 0, b"0000010000000000110011000000000000000100");
    }

    // The last bit is within no other: it stands in every code bit.
    #[test]
    fn last_of_1024(rt: HostRuntime) {
        let mut row = Row::zero();
        row.set(1023, true);
        row.transform(10);
        assert!(rt; (0..1024).all(|k| row.get(k)));
        assert!(rt; !row.get(1024));
    }

    // Bit 576 is bit 64 of the block of 128 bits from 512 on: code bits 0 and 64 of that block.
    #[test]
    fn block_of_words(rt: HostRuntime) {
        let mut row = Row::zero();
        row.set(576, true);
        row.transform_block(512, 7);
        assert!(rt; (0..1024).all(|k| row.get(k) == (k == 512 || k == 576)));
        row.transform_block(64, 7);
        assert!(rt; !row.get(64) && row.get(512) && row.get(576));
    }

    // Rows that differ at one place begin alike up to it and no further.
    fn check_parting(rt: &impl Abort, at: usize) {
        let mut row = Row::zero();
        row.set(at, true);
        assert!(rt; row.agrees(&Row::zero(), at));
        assert!(rt; Row::zero().agrees(&row, at));
        assert!(rt; !row.agrees(&Row::zero(), at.wrapping_add(1)));
        assert!(rt; !row.agrees(&Row::zero(), 5000));
    }

    #[test]
    fn where_rows_part(rt: HostRuntime) {
        check_parting(&rt, 0);
        check_parting(&rt, 63);
        check_parting(&rt, 64);
        check_parting(&rt, 100);
        check_parting(&rt, 1023);
        assert!(rt; Row::zero().agrees(&Row::zero(), 1024));
    }
}
