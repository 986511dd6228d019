//! Laws over the definitions. They hold for all runs, and no code runs.

ghost use Rattle.replay_laws.specs.Laws.{ItemsAreAccepted, LinesHaveFiles, StaysAreAccepted};

/// A replay says yes to the items of each stay of a run, over the file of its program; and so to the items that a run records, over the
/// file of the program that their load note names.
pub fn accepted_items_law()
    ensures stays { StaysAreAccepted }
    ensures items { ItemsAreAccepted }
{}

/// Each program of a manifest has its file among those of the item lines: that of its own line, or one in a `root` line's image.
pub fn files_law()
    ensures { LinesHaveFiles }
{}
