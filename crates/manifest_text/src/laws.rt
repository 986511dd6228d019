//! Laws over the definitions. No code runs.

ghost use Rattle.manifest_text.specs.Laws.{ManifestsAreReasonable, StartsAreClear, TreeManifestsAreReasonable};

/// The numbers of a manifest that is read are bounded, its names are text, and no argument of a start line has a zero byte.
pub fn reasonable_law()
    ensures whole { ManifestsAreReasonable }
    ensures tree { TreeManifestsAreReasonable }
    ensures starts { StartsAreClear }
{}
