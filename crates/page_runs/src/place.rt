//! The placements: which free run a request is cut from.

ghost use Rattle.std.specs.Prelude.{◌≡◌};
ghost use Rattle.page_runs.specs.Place.{better, place};

use crate::run::Run;

/// Which run is taken of those that fit: the lowest, the smallest (the lowest of equal ones), or the
/// highest.
#[derive(Clone, Copy, PartialEq, Eq, Drop)]
pub enum Kind {
    First,
    Best,
    Last,
}

/// The index of the lowest run of at least `need` pages.
pub fn first_fit(runs: &[Run], need: u32) -> Option<usize>
    ensures { result ≡ place Kind.First runs.now need }
{
    for i in 0..runs.len() {
        if runs[i].count >= need {
            return Some(i);
        }
    }
    None
}

/// The better one of the best run so far, by its index and its pages, and the next run.
fn better(best: Option<(usize, u32)>, i: usize, count: u32, need: u32) -> Option<(usize, u32)>
    ensures { result ≡ better best i count need }
{
    match best {
        Some((_, least)) if count < need || least <= count => best,
        None if count < need => None,
        _ => Some((i, count)),
    }
}

/// The index of the smallest run of at least `need` pages, the lowest of equal ones.
pub fn best_fit(runs: &[Run], need: u32) -> Option<usize>
    ensures { result ≡ place Kind.Best runs.now need }
{
    let mut best = None;
    for i in 0..runs.len() {
        best = better(best, i, runs[i].count, need);
    }
    let (i, _) = best?;
    Some(i)
}

/// The index of the highest run of at least `need` pages.
pub fn last_fit(runs: &[Run], need: u32) -> Option<usize>
    ensures { result ≡ place Kind.Last runs.now need }
{
    let mut i = runs.len();
    while i > 0 {
        i -= 1;
        if need <= runs[i].count {
            return Some(i);
        }
    }
    None
}
