//! Laws on the definitions of the format, each the contract of a function that does nothing.

ghost use Rattle.romfs_image.specs.Laws.{StepsSuffice, TextReads, DotsLead};

/// The walk over an image ends by itself, and not for want of steps.
pub fn steps_suffice()
    ensures { StepsSuffice }
{}

/// What is written for nodes has no fault, and is read as these nodes.
pub fn text_reads()
    ensures { TextReads }
{}

/// In what is written for nodes the list of each folder begins with `.`, which names the folder's header,
/// and `..`, which names its parent's.
pub fn dots_lead()
    ensures { DotsLead }
{}
