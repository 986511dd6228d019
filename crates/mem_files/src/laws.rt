//! Laws over the definitions. They hold for all nodes, and no code runs.

ghost use Rattle.mem_files.specs.TreeLaws.{LookupsFindNodes, NewFilesAreThere, ChangesKeepTree, MakingOpensNothing};

/// The nodes stay a tree of names from the root alone on, whatever is made, removed, written, opened and closed. So a look-up
/// gives only nodes that are there. Where nothing but `mkdir` and `create` came, a folder names each node, and none is held.
pub fn names_law()
    ensures looks_up { LookupsFindNodes }
    ensures makes { NewFilesAreThere }
    ensures changes { ChangesKeepTree }
    ensures closed { MakingOpensNothing }
{}
