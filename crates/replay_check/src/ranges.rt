//! A list of ranges of which one goes or is cut.

ghost use Rattle.std.specs.Prelude.{◌≡◌, ◌+◌, ◌*◌, ◌^◌, ◌<◌, ◌≤◌, ◌++◌, IfOk, OnErr, Some, length, slice_get, take, drop, position, vec_capacity};
ghost use Rattle.mmap_rules.specs.declared.mapping.Range.{Range};
ghost use Rattle.flat_loader.specs.Alone.{is_exact, can_cut, part, parts};
ghost use Rattle.replay_check.specs.Ranges.{AreTabled, CanCutAt};

use mmap_rules::{Owners, Range};
use phys_mem::PAGE;
use std::alloc::AllocError;

/// The range is this one: so many pages from an address on.
fn is_exact(range: &Range, addr: u32, pages: u32) -> bool
    ensures { result ≡ is_exact addr (4096 * pages) range.now }
{
    let size = u64::from(PAGE) * u64::from(pages);
    range.from == addr && u64::from(range.size) == size
}

/// The range is anonymous, and has these pages.
fn can_cut(range: &Range, addr: u32, pages: u32) -> bool
    ensures { result ≡ can_cut addr (4096 * pages) range.now }
{
    let end = u64::from(addr) + u64::from(PAGE) * u64::from(pages);
    range.anonymous && range.from <= addr && end <= u64::from(range.from) + u64::from(range.size)
}

/// The place of the oldest range that is this one.
pub(crate) fn place_of_exact(ranges: &[Range], addr: u32, pages: u32) -> Option<usize>
    ensures { result ≡ position (is_exact addr (4096 * pages)) ranges.now }
{
    ranges.iter().position(|range| is_exact(range, addr, pages))
}

/// The place of the oldest anonymous range that has these pages.
pub(crate) fn place_of_cut(ranges: &[Range], addr: u32, pages: u32) -> Option<usize>
    ensures { result ≡ position (can_cut addr (4096 * pages)) ranges.now }
{
    ranges.iter().position(|range| can_cut(range, addr, pages))
}

/// Takes a range off the list, and off the table.
pub(crate) fn take_range(ranges: &mut Vec<Range>, owners: &mut Owners, place: usize)
    requires tabled { AreTabled ranges.old.items owners.old }
    requires place { place < length ranges.old.items }
    ensures ranges { ranges.new.items ≡ take place ranges.old.items ++ drop (place + 1) ranges.old.items }
    ensures tabled { AreTabled ranges.new.items owners.new }
{
    let range = ranges.remove(place);
    owners.remove(&range);
}

/// The part of a range from one address up to another, if it has a byte, comes to a place of the list.
fn insert_part(ranges: &mut Vec<Range>, place: usize, range: &Range, from: u32, to: u32)
    requires up { from ≤ to }
    requires place { place ≤ length ranges.old.items }
    requires room { length ranges.old.items + 1 ≤ vec_capacity ranges.old }
    ensures items { ranges.new.items ≡ take place ranges.old.items ++ part range.now from to ++ drop place ranges.old.items }
    ensures capacity { vec_capacity ranges.new ≡ vec_capacity ranges.old }
{
    if from == to {
        return;
    }
    let part = Range {
        from,
        size: to - from,
        ..*range
    };
    ranges.insert(place, part).unwrap();
}

/// Cuts pages out of an anonymous range: what is left of it stands in its place.
pub(crate) fn cut_range(
    ranges: &mut Vec<Range>,
    owners: &mut Owners,
    place: usize,
    addr: u32,
    pages: u32,
) -> Result<(), AllocError>
    requires tabled { AreTabled ranges.old.items owners.old }
    requires cuts { CanCutAt ranges.old.items place addr pages }
    ensures ranges { (r : Range) → slice_get ranges.old.items place ≡ Some r → IfOk result (λ _. ranges.new.items ≡ take place ranges.old.items ++ parts r addr (4096 * pages) ++ drop (place + 1) ranges.old.items) }
    ensures tabled { AreTabled ranges.new.items owners.new }
    ensures refused { OnErr result (ranges.new.items ≡ ranges.old.items) }
{
    ranges.reserve(2)?;
    let range = ranges.remove(place);
    let size = PAGE * pages;
    insert_part(ranges, place, &range, addr + size, range.from + range.size);
    insert_part(ranges, place, &range, range.from, addr);
    owners.remove(&Range {
        from: addr,
        size,
        ..range
    });
    Ok(())
}
