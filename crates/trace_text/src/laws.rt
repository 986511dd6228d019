//! Laws on the definitions, each the contract of a function that does nothing.

ghost use Rattle.trace_text.specs.Laws.{LinesTell, NumbersAscend};

/// Two calls with equal lines have the same pid, number and reply.
pub fn lines_law()
    ensures { LinesTell }
{}

/// The numbers that are counted ascend, and are those of the shown calls and no others.
pub fn numbers_law()
    ensures { NumbersAscend }
{}
