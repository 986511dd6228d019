//! Laws over the definitions. They hold for all memories and tables, and no code runs.

ghost use Rattle.region_watch.specs.Laws.{OthersRemain, AllIsPassed};

/// What one program's writes leave of another's bytes.
pub fn others_law()
    ensures { OthersRemain }
{}

/// What a watch of a run that goes on lets read.
pub fn passed_law()
    ensures { AllIsPassed }
{}
