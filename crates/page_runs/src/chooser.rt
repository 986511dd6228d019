//! A closure that answers a placement.

ghost use Rattle.std.specs.Prelude.{◌≡◌, ◌<◌, ◌^◌};
ghost use Rattle.page_runs.specs.Choosers.{Chooses, IsChooser, kind_of};
ghost use Rattle.page_runs.specs.Pages.{AreRuns};
ghost use Rattle.page_runs.specs.Place.{Placed, place};

use crate::place::Kind;
use crate::run::Run;

/// A placement with a closure that answers it. That the closure does is no part of the type: `new` has it
/// as a condition and ensures it of the chooser, and each call that takes a chooser has it as a condition.
#[derive(Drop)]
pub struct Chooser<F> {
    kind: Kind,
    pick: F,
}

impl<F: Fn(&[Run], u32) -> Option<usize>> Chooser<F> {
    /// A chooser by a closure that answers the placement `kind`.
    pub fn new(kind: Kind, pick: F) -> Chooser<F>
        requires { Chooses F.pre F.post kind pick }
        ensures chooses { IsChooser F.pre F.post result }
        ensures kind { kind_of result ≡ kind }
    {
        Chooser { kind, pick }
    }

    /// The placement.
    pub fn kind(&self) -> Kind
        ensures { result ≡ kind_of self.now }
    {
        self.kind
    }

    /// The index of the run that a request for `need` pages is cut from, or none where no run fits.
    #[tactic(auto, using(crate::proofs::Places::placed))]
    pub fn pick(&self, runs: &[Run], need: u32) -> Option<usize>
        requires chooses { IsChooser F.pre F.post self.now }
        requires runs { AreRuns runs.now }
        requires need { 0 < need }
        ensures answer { result ≡ place (kind_of self.now) runs.now need }
        ensures rule { Placed (kind_of self.now) runs.now need result }
    {
        (self.pick)(runs, need)
    }
}
