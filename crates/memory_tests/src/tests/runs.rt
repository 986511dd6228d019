//! Free runs: where the placements take pages, and how what is given back joins its neighbours.

ghost use Rattle.std.specs.Prelude.{◌≡◌, ◌+◌, ◌≤◌, ◌<◌, ℕ, true, false, IsTrue};
ghost use Rattle.page_runs.specs.Pages.{in_run, has_page};

use page_runs::{Chooser, Kind, Run, Runs, best_fit, first_fit, last_fit};
use std::alloc::{AllocError, Global};
use std::cell::Cell;
use std::test::*;

/// Whether no page of a range is in a run.
fn is_taken(runs: &[Run], first: u32, count: u32) -> bool
    ensures { IsTrue result → (p : ℕ) → in_run first count p ≡ true → has_page runs.now p ≡ false }
{
    for run in runs {
        let ends = u64::from(run.first) + u64::from(run.count) <= u64::from(first);
        let begins = u64::from(first) + u64::from(count) <= u64::from(run.first);
        if !ends && !begins {
            return false;
        }
    }
    true
}

/// Gives pages of a memory of 24 pages back, if they are taken.
fn give_back(runs: &mut Runs, first: u32, count: u32) -> bool
    requires { runs.old.pages ≡ 24 }
    ensures { runs.new.pages ≡ 24 }
{
    if first > 24 || count > 24 - first || !is_taken(runs.list(), first, count) {
        return false;
    }
    runs.give(first, count);
    true
}

/// A memory of 24 pages with these free runs alone.
const LIST: [(u32, u32); 4] = [(2, 1), (5, 4), (12, 2), (20, 3)];

/// Takes all pages and gives these back: whether just these runs are free then.
fn give_list(runs: &mut Runs) -> bool
    requires { runs.old.pages ≡ 24 }
    ensures { runs.new.pages ≡ 24 }
{
    let chooser = Chooser::new(Kind::First, |runs: &[Run], need: u32| first_fit(runs, need));
    runs.take(24, &chooser);
    for &(first, count) in &LIST {
        give_back(runs, first, count);
    }
    listed(runs, &LIST)
}

fn listed(runs: &Runs, want: &[(u32, u32)]) -> bool {
    runs.list().len() == want.len()
        && runs.list().iter().zip(want).all(|(run, (first, count))| run.first == *first
            && run.count == *count)
}

/// Takes pages by a closure that counts its calls: by 1, 100 or 10,000.
fn take(runs: &mut Runs, calls: &Cell<u32>, kind: Kind, need: u32) -> Option<u32>
    requires pages { runs.old.pages ≡ 24 }
    requires need { 0 < need }
    ensures { runs.new.pages ≡ 24 }
{
    match kind {
        Kind::First => {
            let chooser = Chooser::new(Kind::First, |runs: &[Run], need: u32| {
                calls.set(calls.get().wrapping_add(1));
                first_fit(runs, need)
            });
            runs.take(need, &chooser)
        }
        Kind::Best => {
            let chooser = Chooser::new(Kind::Best, |runs: &[Run], need: u32| {
                calls.set(calls.get().wrapping_add(100));
                best_fit(runs, need)
            });
            runs.take(need, &chooser)
        }
        Kind::Last => {
            let chooser = Chooser::new(Kind::Last, |runs: &[Run], need: u32| {
                calls.set(calls.get().wrapping_add(10_000));
                last_fit(runs, need)
            });
            runs.take(need, &chooser)
        }
    }
}

/// A placement, the first of two pages that it takes, the calls of closures so far, and the free runs then.
type Placed = (Kind, u32, u32, &'static [(u32, u32)]);

static PLACED: [Placed; 3] = [
    (Kind::First, 5, 2, &[(2, 1), (7, 2), (12, 2), (20, 3)]),
    (Kind::Best, 12, 102, &[(2, 1), (5, 4), (20, 3)]),
    (Kind::Last, 20, 10_102, &[(2, 1), (5, 4), (12, 2), (22, 1)]),
];

/// Five pages aren't in any run. Two are, and are given back.
fn places(runs: &mut Runs, calls: &Cell<u32>) -> bool
    requires { runs.old.pages ≡ 24 }
{
    if take(runs, calls, Kind::First, 5).is_some() || !listed(runs, &LIST) {
        return false;
    }
    for &(kind, want, count, list) in &PLACED {
        let taken = take(runs, calls, kind, 2);
        let is_so = taken == Some(want) && calls.get() == count && listed(runs, list);
        if !is_so || !give_back(runs, want, 2) {
            return false;
        }
    }
    true
}

/// Whether it is so in a memory of 24 pages.
fn placements_hold(alloc: Global) -> Result<bool, AllocError> {
    let calls = Cell::new(0u32);
    let mut runs = Runs::new(alloc, 24)?;
    Ok(give_list(&mut runs) && places(&mut runs, &calls))
}

#[test]
fn placements(rt: HostRuntime) -> Result<(), Fail> {
    assert!(rt; placements_hold(rt.alloc())?);
    Ok(())
}

#[test]
fn a_chooser_has_its_kind(rt: HostRuntime) {
    let best = Chooser::new(Kind::Best, |runs: &[Run], need: u32| best_fit(runs, need));
    assert!(rt; best.kind() == Kind::Best);
}

/// What is given back joins both neighbours, one or none.
static MERGED: [(u32, u32, &[(u32, u32)]); 8] = [
    (16, 0, &LIST),
    (16, 2, &[(2, 1), (5, 4), (12, 2), (16, 2), (20, 3)]),
    (14, 2, &[(2, 1), (5, 4), (12, 6), (20, 3)]),
    (9, 1, &[(2, 1), (5, 5), (12, 6), (20, 3)]),
    (19, 1, &[(2, 1), (5, 5), (12, 6), (19, 4)]),
    (18, 1, &[(2, 1), (5, 5), (12, 11)]),
    (0, 1, &[(0, 1), (2, 1), (5, 5), (12, 11)]),
    (23, 1, &[(0, 1), (2, 1), (5, 5), (12, 12)]),
];

fn merge(runs: &mut Runs) -> bool
    requires { runs.old.pages ≡ 24 }
{
    for &(first, count, want) in &MERGED {
        if !give_back(runs, first, count) || !listed(runs, want) {
            return false;
        }
    }
    true
}

fn merges_hold(alloc: Global) -> Result<bool, AllocError> {
    let mut runs = Runs::new(alloc, 24)?;
    Ok(give_list(&mut runs) && merge(&mut runs))
}

#[test]
fn merges(rt: HostRuntime) -> Result<(), Fail> {
    assert!(rt; merges_hold(rt.alloc())?);
    Ok(())
}

/// What is taken of eight pages: nine, eight and one.
fn taken_of_eight(alloc: Global) -> Result<[Option<u32>; 3], AllocError> {
    let mut runs = Runs::new(alloc, 8)?;
    let chooser = Chooser::new(Kind::First, |runs: &[Run], need: u32| first_fit(runs, need));
    let nine = runs.take(9, &chooser);
    let eight = runs.take(8, &chooser);
    let one = runs.take(1, &chooser);
    Ok([nine, eight, one])
}

/// More pages than there are.
#[test]
fn too_many(rt: HostRuntime) -> Result<(), Fail> {
    let [nine, eight, one] = taken_of_eight(rt.alloc())?;
    assert!(rt; nine.is_none() && eight == Some(0) && one.is_none());
    Ok(())
}
