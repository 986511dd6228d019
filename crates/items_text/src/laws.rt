//! Laws on the definitions, each the contract of a function that does nothing.

ghost use Rattle.items_text.specs.Laws.{LinesAreReported, OneFault};

/// A call's line in a text of items is its line in a run's report, with ` brought HEX` before the newline.
pub fn lines_law()
    ensures { LinesAreReported }
{}

/// A text has one line at fault, at the most.
pub fn faults_law()
    ensures { OneFault }
{}
