//! Laws over the definitions. They hold for all lists of runs, and no code runs.

ghost use Rattle.page_runs.specs.Laws.{AreMaximal, HaveFreePages, AreOnly, PlaceIsPlaced, PlaceIsOnly};

/// The maximal runs of the free pages are one list.
pub fn free_runs_law()
    ensures maximal { AreMaximal }
    ensures pages { HaveFreePages }
    ensures only { AreOnly }
{}

/// The placement's rule has one answer.
pub fn place_law()
    ensures placed { PlaceIsPlaced }
    ensures only { PlaceIsOnly }
{}
