//! A law of the walk over a tree, the contract of a function that does nothing.

ghost use Rattle.rom_tree.specs.Laws.{ListsWholeTree};

/// The walk lists as many nodes as a tree has but the root: it ends by itself, and not for want of steps.
pub fn lists_whole_tree()
    ensures { ListsWholeTree }
{}
