//! Laws over the definitions. They hold for all worlds, and no code runs.

ghost use Rattle.alone_laws.specs.Laws.{EventsKeepSound, TurnsKeepSound, RunsKeepSound, BootsAreSound, EventsKeepStays, TurnsKeepStays, RunsKeepStays, BootsBeginStays};

/// What holds of every world of a run: one process runs in a space, mappings share pages of copies alone, and a copy has
/// its file's bytes as long as the file isn't changed. It holds at boot, and every event keeps it.
pub fn sound_law()
    ensures boots { BootsAreSound }
    ensures events { EventsKeepSound }
    ensures turns { TurnsKeepSound }
    ensures runs { RunsKeepSound }
{}

/// What is told of each space's stay is right at boot, and stays so along every run: its calls are those that were kept, and its
/// program, loaded at its place and run alone under the same replies, isn't refuted, and leaves the space's own bytes, own
/// ranges, and processes with their registers.
pub fn stays_law()
    ensures boots { BootsBeginStays }
    ensures events { EventsKeepStays }
    ensures turns { TurnsKeepStays }
    ensures runs { RunsKeepStays }
{}
