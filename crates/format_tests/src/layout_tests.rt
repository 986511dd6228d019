//! Tests of `flat_layout`.

use flat_layout::Layout;
use std::test::*;

/// Addresses and their numbers, of an image that begins below address 0.
static NUMBERS: [(u32, u32); 4] = [
    (0, 64),
    (8, 72),
    (0xffff_ffc0, 0),
    (0xffff_ffbf, 0xffff_ffff),
];

#[test]
fn numbers(rt: HostRuntime) {
    let layout = Layout {
        v0: 0xffff_ffc0,
        text: 64,
        data_len: 12,
        bss: 0,
        entry: 64,
    };
    for &(address, want) in &NUMBERS {
        assert!(rt; layout.off(address) == want);
    }
}
