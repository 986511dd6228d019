//! The free runs of a memory.

ghost use Rattle.std.specs.Prelude.{◌≡◌, ◌+◌, ◌*◌, ◌<◌, ◌≤◌, ℕ, Bool, true, false, List, [], ◌∷◌, IfOk, IfSome, MatchOption, vec_len, vec_capacity};
ghost use Rattle.page_runs.specs.Choosers.{IsChooser, kind_of};
ghost use Rattle.page_runs.specs.Free.{IsFree, is_free, without, with_free};
ghost use Rattle.page_runs.specs.Pages.{in_run};
ghost use Rattle.page_runs.specs.Place.{Gets, place, first_of};

use crate::chooser::Chooser;
use crate::edits::{cut_front, index_of, meets_above, meets_below, replace};
use crate::run::Run;
use std::alloc::{AllocError, Global};
use std::marker::Model;

/// The free pages of a memory, as its maximal free runs.
#[derive(Drop)]
pub struct Runs {
    pages: u32,
    runs: Vec<Run>,
}

impl Model for Runs {
    ghost use Rattle.std.specs.Prelude.{◌+◌, ◌*◌, ◌≤◌, vec_capacity};
    ghost use Rattle.page_runs.specs.Free.{Free, IsFree};

    ghost Value = { Free };

    ghost view = { λ s. record { pages = s.pages; runs = s.runs.items } };

    ghost invariant = { λ s. IsFree (record { pages = s.pages; runs = s.runs.items }) × ((s.pages ≤ 16384) × (s.pages + 1 ≤ 2 * vec_capacity s.runs)) };
}

impl Runs {
    /// Takes room for all later calls. All pages are free.
    pub fn new(alloc: Global, pages: u32) -> Result<Runs, AllocError>
        requires some { 1 ≤ pages }
        requires most { pages ≤ 16384 }
        ensures { IfOk result (λ s. s ≡ record { pages = pages; runs = record { first = 0; count = pages } ∷ [] }) }
    {
        let mut runs = Vec::with_capacity(alloc, (pages / 2 + 1) as usize)?;
        runs.push(Run {
            first: 0,
            count: pages,
        })?;
        Ok(Runs { pages, runs })
    }

    /// The maximal free runs, ascending.
    pub fn list(&self) -> &[Run]
        ensures list { result.now ≡ self.now.runs }
        ensures maximal { IsFree self.now }
    {
        &self.runs
    }

    /// Takes `need` pages from the front of the run that the chooser picks, and gives the first of them;
    /// none where no run has so many, which changes nothing.
    pub fn take<F: Fn(&[Run], u32) -> Option<usize>>(
        &mut self,
        need: u32,
        chooser: &Chooser<F>,
    ) -> Option<u32>
        requires chooser { IsChooser F.pre F.post chooser.now }
        requires need { 0 < need }
        ensures placed { result ≡ first_of self.old.runs (place (kind_of chooser.now) self.old.runs need) }
        ensures gets { Gets (kind_of chooser.now) self.old.runs need result }
        ensures pages { MatchOption result (self.new ≡ self.old) (λ first. self.new ≡ without self.old first need) }
        ensures free { IfSome result (λ first. (p : ℕ) → in_run first need p ≡ true → is_free self.old p ≡ true) }
    {
        let i = chooser.pick(&self.runs, need)?;
        Some(cut_front(&mut self.runs, i, need))
    }

    /// Makes `count` pages from `first` on free.
    pub fn give(&mut self, first: u32, count: u32)
        requires inside { first + count ≤ self.old.pages }
        requires taken { (p : ℕ) → in_run first count p ≡ true → is_free self.old p ≡ false }
        ensures { self.new ≡ with_free self.old first count }
    {
        let at = index_of(&self.runs, first);
        if count == 0 {
            return;
        }
        let (from, below) = meets_below(&self.runs, at, first);
        let (to, above) = meets_above(&self.runs, at, first + count);
        let run = Run {
            first: first - below,
            count: below + count + above,
        };
        replace(&mut self.runs, from, to, run);
    }
}
