//! Tests of `byte_words`.

use byte_words::*;
use std::test::*;

static BYTES: [u8; 6] = [0xff, 0x12, 0x34, 0x56, 0x78, 0x80];

/// An offset, and the numbers in one, two and four bytes from it on, and in four with the highest byte first.
static NUMBERS: [(usize, (u8, u16, u32, u32)); 3] = [
    (0, (0xff, 0x12ff, 0x5634_12ff, 0xff12_3456)),
    (1, (0x12, 0x3412, 0x7856_3412, 0x1234_5678)),
    (2, (0x34, 0x5634, 0x8078_5634, 0x3456_7880)),
];

/// The first offset at which one of them is another.
fn other_numbers() -> Option<usize> {
    for &(at, (first, half_word, low, big)) in &NUMBERS {
        let is_so = at <= 2
            && byte(&BYTES, at) == first
            && half(&BYTES, at) == half_word
            && word(&BYTES, at) == low
            && big_word(&BYTES, at) == big;
        if !is_so {
            return Some(at);
        }
    }
    None
}

#[test]
fn numbers(rt: HostRuntime) {
    assert!(rt; other_numbers().is_none());
}
