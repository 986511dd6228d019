//! Laws over the definitions. They hold for all files, and no code runs.

ghost use Rattle.psabi_relocs.specs.Laws.{BalancedLaw, UnbalancedLaw, SameCountsLaw, AcceptedGroupLaw, UnpairedGroupLaw};

/// What the psABI computes on the number of a group is the same at every base exactly where the group is
/// balanced, as far as the number can tell the counts. So an image may leave the bytes of an accepted group that no entry of
/// another width or of an overlapping place meets, and may not take the others.
pub fn differences_law()
    ensures balanced { BalancedLaw }
    ensures unbalanced { UnbalancedLaw }
    ensures counts { SameCountsLaw }
    ensures accepted { AcceptedGroupLaw }
    ensures unpaired { UnpairedGroupLaw }
{}
