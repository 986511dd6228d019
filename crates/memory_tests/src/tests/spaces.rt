//! Looks that are counted.

ghost use Rattle.std.specs.Prelude.{◌≡◌, ◌<◌, length};

use mmap_rules::{Owners, PageOwner, Steps};
use phys_mem::BASE;
use std::marker::Brand;
use std::sync::ledger::{Blank, Ledger};
use std::test::*;

/// What a table answers of a range, and its entry of a page, with the looks counted.
fn looked<L: Ledger>(
    owners: &Owners,
    addr: u32,
    len: u32,
    page: u32,
    blank: Blank,
) -> (bool, PageOwner)
    requires name { blank.name ≡ L.name }
    requires parts { blank.parts ≡ L.parts }
    requires some { 0 < blank.parts }
    requires inside { page < length owners.now }
{
    let mut steps = Steps::<L>::new(blank);
    let own = owners.own_counted(addr, len, true, &mut steps);
    (own, owners.look(page, &mut steps))
}

/// A page that may be written from byte 64 on.
const WRITTEN: PageOwner = PageOwner {
    from: 64,
    write: true,
    uses: 1,
};

/// A page that may only be read.
const READ: PageOwner = PageOwner {
    from: 0,
    write: false,
    uses: 1,
};

/// Ranges over the end of the first page, into the second: a page, whether the range is own, and the page's entry.
static LOOKS: [(u32, u32, u32, bool, PageOwner); 5] = [
    (BASE + 4094, 2, 0, true, WRITTEN),
    (BASE + 4094, 4, 1, false, READ),
    (BASE + 62, 4, 0, false, WRITTEN),
    (BASE + 8190, 4, 1, false, READ),
    (0, 0, 0, true, WRITTEN),
];

/// The first address at which something else is seen.
fn looks_other(owners: &Owners) -> Option<u32>
    requires { length owners.now ≡ 2 }
{
    for &(addr, len, page, own, entry) in &LOOKS {
        if page < 2 && looked::<Brand>(owners, addr, len, page, Blank::new(1)) != (own, entry) {
            return Some(addr);
        }
    }
    None
}

#[test]
fn counted_looks(rt: HostRuntime) -> Result<(), Fail> {
    let owners = Owners::of(Vec::from_array(rt.alloc(), [WRITTEN, READ])?);
    assert!(rt; looks_other(&owners).is_none());
    Ok(())
}
