//! The own addresses of a table, page by page.

ghost use Rattle.std.specs.Prelude.{◌≡◌, ◌+◌, ◌*◌, ◌^◌, ◌<◌, ◌≤◌, List, IfOk, IfSome, OnOk, Some, length, slice_get};
ghost use Rattle.mmap_rules.specs.declared.page_owner.PageOwner.{PageOwner};
ghost use Rattle.mmap_rules.specs.Space.{memory_base};
ghost use Rattle.mmap_rules.specs.Held.{page_address};
ghost use Rattle.core_world.specs.Segments.{intervals};
ghost use Rattle.core_world.proofs.Intervals.{all_joined, total};
ghost use Rattle.core_parts.specs.Tables.{kind_in};
ghost use Rattle.core_parts.specs.Code.{listed, lowest_first};

use crate::interval::{Interval, add_below};
use mmap_rules::{Owners, PageOwner, Steps};
use phys_mem::{BASE, PAGE};
use std::alloc::{AllocError, Global};
use std::marker::Brand;
use std::sync::ledger::{Blank, Ledger};

/// The own addresses of a page with this entry, if there are any: those from one on.
fn own_part(page: u32, entry: PageOwner) -> Option<Interval>
    requires { page < 16384 }
    ensures part { (table : List PageOwner) → slice_get table page ≡ Some entry → intervals (kind_in table) (page_address page) 4096 ≡ listed result }
    ensures end { IfSome result (λ i. i.addr + i.len ≡ page_address (page + 1)) }
    ensures len { IfSome result (λ i. i.len ≤ 4096) }
{
    if entry.uses == 0 || entry.from >= PAGE {
        return None;
    }
    Some(Interval {
        addr: BASE + PAGE * page + entry.from,
        len: PAGE - entry.from,
        write: entry.write,
    })
}

/// Puts the own addresses of a page with this entry in front of those above it, of which the last ones are the lowest.
fn add_page(above: &mut Vec<Interval>, page: u32, entry: PageOwner) -> Result<(), AllocError>
    requires page { page < 16384 }
    requires fits { total (lowest_first above.old.items) ≤ 67108864 }
    ensures joined { (table : List PageOwner) → slice_get table page ≡ Some entry → OnOk result (lowest_first above.new.items ≡ all_joined (intervals (kind_in table) (page_address page) 4096) (lowest_first above.old.items)) }
    ensures count { OnOk result (length above.new.items ≤ length above.old.items + 1) }
{
    match own_part(page, entry) {
        Some(part) => add_below(above, part),
        None => Ok(()),
    }
}

/// As `own_intervals`, with a counter of looks that nobody reads.
fn intervals_by<L: Ledger>(
    alloc: Global,
    owners: &Owners,
    pages: u32,
    blank: Blank,
) -> Result<Vec<Interval>, AllocError>
    requires most { pages ≤ 16384 }
    requires pages { length owners.now ≡ pages }
    requires name { blank.name ≡ L.name }
    requires parts { blank.parts ≡ L.parts }
    requires some { 0 < blank.parts }
    ensures all { IfOk result (λ is. lowest_first is.items ≡ intervals (kind_in owners.now) memory_base (4096 * pages)) }
    ensures few { IfOk result (λ is. length is.items ≤ pages) }
{
    let mut steps = Steps::<L>::new(blank);
    let mut found = Vec::new(alloc);
    let mut page = pages;
    while page > 0 {
        page -= 1;
        let entry = owners.look(page, &mut steps);
        add_page(&mut found, page, entry)?;
    }
    Ok(found)
}

/// The own addresses of a table of so many pages, in intervals, of which the last one is the lowest.
pub fn own_intervals(
    alloc: Global,
    owners: &Owners,
    pages: u32,
) -> Result<Vec<Interval>, AllocError>
    requires most { pages ≤ 16384 }
    requires pages { length owners.now ≡ pages }
    ensures all { IfOk result (λ is. lowest_first is.items ≡ intervals (kind_in owners.now) memory_base (4096 * pages)) }
    ensures few { IfOk result (λ is. length is.items ≤ pages) }
{
    intervals_by::<Brand>(alloc, owners, pages, Blank::new(1))
}
