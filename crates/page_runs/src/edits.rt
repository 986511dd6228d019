//! How a list of runs changes: a run is cut, or one is given back and joins those that it meets.

ghost use Rattle.std.specs.Prelude.{◌≡◌, ◌+◌, ◌^◌, ◌<◌, ◌≤◌, ◌∷◌, ◌++◌, ℕ, false, take, drop, length, slice_get, option_map, vec_len, vec_capacity};
ghost use Rattle.page_runs.specs.Edits.{cut, MeetsBelow, MeetsAbove};
ghost use Rattle.page_runs.specs.Pages.{has_page, Spaced};

use crate::run::Run;

/// Takes `need` pages from the front of a run, which goes if it has no more, and gives the first of them.
pub fn cut_front(runs: &mut Vec<Run>, i: usize, need: u32) -> u32
    requires bound { i < vec_len runs.old }
    requires spaced { Spaced 1 0 16385 runs.old.items }
    requires fits { (run : Run) → slice_get runs.old.items i ≡ Some run → need ≤ run.count }
    ensures first { Some result ≡ option_map (λ run. run.first) (slice_get runs.old.items i) }
    ensures items { runs.new.items ≡ cut runs.old.items i need }
    ensures room { vec_capacity runs.old ≤ vec_capacity runs.new }
{
    let run = runs[i];
    if run.count == need {
        runs.remove(i);
    } else {
        runs[i] = Run {
            first: run.first + need,
            count: run.count - need,
        };
    }
    run.first
}

/// The index of the first run that doesn't begin before a page.
pub fn index_of(runs: &[Run], first: u32) -> usize
    requires { Spaced 1 0 16385 runs.now }
    ensures bound { result ≤ length runs.now }
    ensures below { (k : ℕ) (run : Run) → k < result → slice_get runs.now k ≡ Some run → run.first < first }
    ensures above { (k : ℕ) (run : Run) → result ≤ k → slice_get runs.now k ≡ Some run → first ≤ run.first }
{
    runs.partition_point(|run| run.first < first)
}

/// The run before index `at` joins page `first` if it ends there: the index from which runs join, and how
/// many pages they have.
pub fn meets_below(runs: &[Run], at: usize, first: u32) -> (usize, u32)
    requires at { at ≤ length runs.now }
    requires spaced { Spaced 1 0 16385 runs.now }
    requires before { (k : ℕ) (run : Run) → k < at → slice_get runs.now k ≡ Some run → run.first < first }
    requires taken { has_page runs.now first ≡ false }
    ensures { MeetsBelow runs.now at first result.1 result.0 }
{
    if at == 0 {
        return (0, 0);
    }
    let run = runs[at - 1];
    if run.first + run.count == first {
        (at - 1, run.count)
    } else {
        (at, 0)
    }
}

/// The run at index `at` joins page `end` if it begins there: the index before which runs join, and how many
/// pages they have.
pub fn meets_above(runs: &[Run], at: usize, end: u32) -> (usize, u32)
    requires at { at ≤ length runs.now }
    requires spaced { Spaced 1 0 16385 runs.now }
    requires after { (run : Run) → slice_get runs.now at ≡ Some run → end ≤ run.first }
    ensures { MeetsAbove runs.now at end result.1 result.0 }
{
    if at == runs.len() {
        return (at, 0);
    }
    let run = runs[at];
    if run.first == end {
        (at + 1, run.count)
    } else {
        (at, 0)
    }
}

/// Puts a run in the place of those from index `from` on and before `to`, of which there are at most two.
pub fn replace(runs: &mut Vec<Run>, from: usize, to: usize, run: Run)
    requires some { from ≤ to }
    requires two { to ≤ from + 2 }
    requires bound { to ≤ vec_len runs.old }
    requires room { from ≡ to → vec_len runs.old < vec_capacity runs.old }
    ensures items { runs.new.items ≡ take from runs.old.items ++ run ∷ drop to runs.old.items }
    ensures room { vec_capacity runs.old ≤ vec_capacity runs.new }
{
    match to - from {
        0 => {
            let _ = runs.insert(from, run);
        }
        1 => runs[from] = run,
        _ => {
            runs[from] = run;
            runs.remove(from + 1);
        }
    }
}
