//! Regions as they come, are used and go.

ghost use Rattle.std.specs.Prelude.{◌<◌, IfSome};
ghost use Rattle.nommu_regions.specs.Ids.{Lives};

use nommu_regions::{Regions, Source};
use page_runs::{Chooser, Kind, Run, first_fit};
use phys_mem::{BASE, PAGE, PhysMem};
use std::alloc::{AllocError, Global};
use std::test::*;

/// A new region in the lowest run that fits; none where the memory hasn't as many pages as the regions.
fn fresh_of(regions: &mut Regions, memory: &mut PhysMem, pages: u32, source: Source) -> Option<u32>
    requires { 0 < pages }
    ensures { IfSome result (λ id. Lives regions.new id) }
{
    if memory.pages() != regions.pages() {
        return None;
    }
    let chooser = Chooser::new(Kind::First, |runs: &[Run], need: u32| {
        first_fit(runs, need)
    });
    regions.fresh(memory, pages, source, &chooser)
}

/// The same of pages of its own.
fn fresh(regions: &mut Regions, memory: &mut PhysMem, pages: u32) -> Option<u32>
    requires { 0 < pages }
    ensures { IfSome result (λ id. Lives regions.new id) }
{
    fresh_of(regions, memory, pages, Source::Own)
}

fn is_free(regions: &Regions, want: &[(u32, u32)]) -> bool {
    regions.free().len() == want.len()
        && regions.free().iter().zip(want).all(|(run, (first, count))| run.first == *first
            && run.count == *count)
}

/// Of two uses of three pages the first one that is dropped frees nothing.
fn keeps_its_pages(regions: &mut Regions, memory: &mut PhysMem) -> bool {
    let none = fresh(regions, memory, 9);
    let Some(low) = fresh(regions, memory, 3) else {
        return false;
    };
    if regions.region(low).uses != 1 {
        return false;
    }
    regions.add_use(low);
    let uses = regions.region(low).uses;
    regions.drop_use(low);
    none.is_none() && uses == 2 && is_free(regions, &[(3, 5)])
}

/// The last use frees a run, which is cleared when it is taken again.
fn frees_its_pages(regions: &mut Regions, memory: &mut PhysMem) -> bool {
    let Some(high) = fresh(regions, memory, 5) else {
        return false;
    };
    let is_last = high == 3 && regions.free().len() == 0;
    if memory.holds(BASE + 3 * PAGE, 4) {
        memory.set32(BASE + 3 * PAGE, 0x1234_5678);
    }
    regions.drop_use(high);
    is_last
        && is_free(regions, &[(3, 5)])
        && fresh(regions, memory, 1) == Some(3)
        && memory.holds(BASE + 3 * PAGE, 4)
        && memory.get32(BASE + 3 * PAGE) == 0
}

/// Whether it is so in a memory of eight pages.
fn uses_hold(alloc: Global) -> Result<bool, AllocError> {
    let mut memory = PhysMem::new(alloc, 8)?;
    let mut regions = Regions::new(alloc, 8)?;
    let keeps = keeps_its_pages(&mut regions, &mut memory);
    Ok(keeps && frees_its_pages(&mut regions, &mut memory))
}

#[test]
fn uses(rt: HostRuntime) -> Result<(), Fail> {
    assert!(rt; uses_hold(rt.alloc())?);
    Ok(())
}

/// Regions that come, and which copy has pages 4 to 6 of file 3 at change 7 then.
static COPIES: [(Source, u32, Option<u32>); 6] = [
    (Source::Own, 2, None),
    (
        Source::Copy {
            file: 3,
            change: 7,
            first: 2,
        },
        4,
        None,
    ),
    (
        Source::Copy {
            file: 3,
            change: 6,
            first: 4,
        },
        3,
        None,
    ),
    (
        Source::Copy {
            file: 4,
            change: 7,
            first: 4,
        },
        3,
        None,
    ),
    (
        Source::Copy {
            file: 3,
            change: 7,
            first: 3,
        },
        4,
        Some(12),
    ),
    (
        Source::Copy {
            file: 3,
            change: 7,
            first: 4,
        },
        3,
        Some(12),
    ),
];

fn copies_come(regions: &mut Regions, memory: &mut PhysMem) -> bool {
    for &(source, pages, want) in &COPIES {
        let new = fresh_of(regions, memory, pages, source);
        if new.is_none() || regions.find(3, 7, 4, 3) != want {
            return false;
        }
    }
    true
}

/// Which copy is found behind each that goes.
static LEFT: [Option<u32>; 2] = [Some(16), None];

fn copies_go(regions: &mut Regions) -> bool {
    for &want in &LEFT {
        if let Some(id) = regions.find(3, 7, 4, 3) {
            regions.drop_use(id);
        }
        if regions.find(3, 7, 4, 3) != want {
            return false;
        }
    }
    regions.find(3, 7, u32::MAX, u32::MAX).is_none()
}

/// Whether they come and go so in a memory of twenty pages.
fn copies_hold(alloc: Global) -> Result<bool, AllocError> {
    let mut memory = PhysMem::new(alloc, 20)?;
    let mut regions = Regions::new(alloc, 20)?;
    let come = copies_come(&mut regions, &mut memory);
    Ok(come && copies_go(&mut regions))
}

#[test]
fn copies(rt: HostRuntime) -> Result<(), Fail> {
    assert!(rt; copies_hold(rt.alloc())?);
    Ok(())
}
