//! Laws on the definitions of loading, each the contract of a function that does nothing.

ghost use Rattle.flat_loader.specs.Laws.{ProgramsBegin};

/// A flat program whose frame fits begins with its image, zeros behind it, and the frame on its stack.
pub fn programs_begin()
    ensures { ProgramsBegin }
{}
