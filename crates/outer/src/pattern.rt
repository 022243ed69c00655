// The sizes of the spread checks, and their order and rows as tables. Assumes nothing.
// They are computed from the divisors, and proved to be those of the definition.
ghost use Rattle.std.specs.Prelude.{◌≡◌, ℕ, ◌<◌, length, slice_index_or};
ghost use Rattle.base.specs.Bits.{bit_of};
ghost use Rattle.crc.specs.Spread.{width, longest, rows, enters, placed};

use crc::Spread;

// which bit of payload and check bits stands at each place of the longest word
const ORDER_4: [u8; 12] = [0, 2, 6, 8, 1, 3, 7, 9, 4, 10, 5, 11];

const ORDER_24: [u8; 164] = [
    0, 2, 4, 7, 9, 14, 19, 20, 24, 25, 26, 28, 31, 34, 42, 45, 49, 50, 51, 53, 54, 56, 58, 59, 61,
    62, 65, 66, 67, 69, 70, 71, 72, 76, 77, 81, 82, 83, 87, 88, 89, 91, 93, 95, 98, 101, 104, 106,
    108, 110, 111, 113, 115, 118, 119, 120, 122, 123, 126, 127, 129, 132, 134, 138, 139, 140, 1, 3,
    5, 8, 10, 15, 21, 27, 29, 32, 35, 43, 46, 52, 55, 57, 60, 63, 68, 73, 78, 84, 90, 92, 94, 96,
    99, 102, 105, 107, 109, 112, 114, 116, 121, 124, 128, 130, 133, 135, 141, 6, 11, 16, 22, 30,
    33, 36, 44, 47, 64, 74, 79, 85, 97, 100, 103, 117, 125, 131, 136, 142, 12, 17, 23, 37, 48, 75,
    80, 86, 137, 143, 13, 18, 38, 144, 39, 145, 40, 146, 41, 147, 148, 149, 150, 151, 152, 153,
    154, 155, 156, 157, 158, 159, 160, 161, 162, 163,
];

// which check bits each bit of the longest payload enters: check bit j at 2^j
const ROWS_4: [u32; 8] = [5, 10, 1, 2, 4, 8, 5, 10];

const ROWS_24: [u32; 140] = [
    0x6a1ad5, 0xd435aa, 0x7971cf, 0xf2e39e, 0x34dda7, 0x69bb4e, 0xd3769c, 0x77f7a3, 0xefef46,
    0xec417, 0x1d882e, 0x3b105c, 0x7620b8, 0xec4170, 0x9987b, 0x1330f6, 0x2661ec, 0x4cc3d8,
    0x9987b0, 0xe215fb, 0x15316d, 0x2a62da, 0x54c5b4, 0xa98b68, 0x820c4b, 0xd5020d, 0x7b1e81,
    0xf63d02, 0x3d609f, 0x7ac13e, 0xf5827c, 0x3a1e63, 0x743cc6, 0xe8798c, 0x1e983, 0x3d306,
    0x7a60c, 0xf4c18, 0x1e9830, 0x3d3060, 0x7a60c0, 0xf4c180, 0x38999b, 0x713336, 0xe2666c,
    0x15d643, 0x2bac86, 0x57590c, 0xaeb218, 0x8c7eab, 0xc9e7cd, 0x42d501, 0x85aa02, 0xda4e9f,
    0x6587a5, 0xcb0f4a, 0x47040f, 0x8e081e, 0xcd0aa7, 0x4b0fd5, 0x961faa, 0xfd25cf, 0x2b5105,
    0x56a20a, 0xad4414, 0x8b92b3, 0xc63ffd, 0x5d6561, 0xbacac2, 0xa48f1f, 0x9804a5, 0xe113d1,
    0x133d39, 0x267a72, 0x4cf4e4, 0x99e9c8, 0xe2c90b, 0x14888d, 0x29111a, 0x522234, 0xa44468,
    0x99924b, 0xe23e0d, 0x156681, 0x2acd02, 0x559a04, 0xab3408, 0x87728b, 0xdfff8d, 0x6ee581,
    0xddcb02, 0x6a8c9f, 0xd5193e, 0x7b28e7, 0xf651ce, 0x3db907, 0x7b720e, 0xf6e41c, 0x3cd2a3,
    0x79a546, 0xf34a8c, 0x378f83, 0x6f1f06, 0xde3e0c, 0x6d6683, 0xdacd06, 0x648097, 0xc9012e,
    0x4318c7, 0x86318e, 0xdd7987, 0x6be995, 0xd7d32a, 0x7ebccf, 0xfd799e, 0x2be9a7, 0x57d34e,
    0xafa69c, 0x8e57a3, 0xcdb5dd, 0x4a7121, 0x94e242, 0xf8de1f, 0x20a6a5, 0x414d4a, 0x829a94,
    0xd42fb3, 0x7945fd, 0xf28bfa, 0x340d6f, 0x681ade, 0xd035bc, 0x7171e3, 0xe2e3c6, 0x14dd17,
    0x29ba2e, 0x53745c, 0xa6e8b8, 0x9ccbeb, 0xe88d4d,
];

pub fn width_of(kind: Spread) -> usize
    ensures { result ≡ width kind }
{
    match kind {
        Spread::Four => 4,
        Spread::TwentyFour => 24,
    }
}

pub fn longest_of(kind: Spread) -> usize
    ensures { result ≡ longest kind }
{
    match kind {
        Spread::Four => 8,
        Spread::TwentyFour => 140,
    }
}

// The order of the longest word.
pub fn order_of(kind: Spread) -> &'static [u8]
    ensures { result.now ≡ placed (rows kind) (width kind) }
{
    match kind {
        Spread::Four => &ORDER_4,
        Spread::TwentyFour => &ORDER_24,
    }
}

// A row for each bit of the longest payload.
pub fn rows_of(kind: Spread) -> &'static [u32]
    ensures size { length result.now ≡ longest kind }
    ensures bits { (i j : ℕ) → i < longest kind → bit_of (slice_index_or result.now i 0) j ≡ enters (rows kind) i j }
{
    match kind {
        Spread::Four => &ROWS_4,
        Spread::TwentyFour => &ROWS_24,
    }
}
