//! Laws over the items that runs keep. No code runs.
ghost use Rattle.command_laws.specs.AcceptedItems.{RunsAcceptItems};
ghost use Rattle.command_laws.specs.ReplayedItems.{StoredItemsReplay};

/// Where a run without `--go-on` reaches its machine, the items that `--items N` keeps of it have a text, and a replay says yes to them over
/// the file of the program that load note N names: the ELF file or the flat file of an item line, or one of an image.
pub fn accepted_law()
    ensures { RunsAcceptItems }
{}

/// What a call of `run --items N FILE` stored, without `--go-on`, a call of `replay` accepts: over the file of the program that load note N
/// names its one line says yes, if no fault is counted, or it is out of memory.
pub fn replayed_law()
    ensures { StoredItemsReplay }
{}
