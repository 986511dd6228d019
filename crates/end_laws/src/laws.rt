//! Laws over the definitions. They hold for all worlds, and no code runs.

ghost use Rattle.end_laws.specs.Console.{BootsPrintNone, EventsPrint, TurnsPrint, RunsPrint};
ghost use Rattle.end_laws.specs.ConsoleIn.{EventsPrintIn, TurnsPrintIn, RunsPrintIn};
ghost use Rattle.end_laws.specs.Laws.{BootsEndNone, EventsEndAsAlone, TurnsEndAsAlone, RunsEndAsAlone};

/// The note of an end tells how its process's program ends there alone: it is the process that made the event; and where the stays
/// were right, the run of its space's stay alone comes to that process, which stands at an exit with this code, or traps with
/// this signal. So in a whole run: no end is noted at boot, and for each one that is noted behind a turn or a run, the run of one
/// of the stays, as it was at some earlier moment of its life, comes to it alone.
pub fn end_law()
    ensures boots { BootsEndNone }
    ensures events { EventsEndAsAlone }
    ensures turns { TurnsEndAsAlone }
    ensures runs { RunsEndAsAlone }
{}

/// The console is the joined data of the writes that were noted and whose descriptor was the console, in the order of their notes,
/// each whole: so for an event, and along every turn and run. Nothing else comes there.
pub fn console_law()
    ensures boots { BootsPrintNone }
    ensures events { EventsPrint }
    ensures turns { TurnsPrint }
    ensures runs { RunsPrint }
{}

/// So it is over the one memory of a run that goes on, up to its first stray access and behind it.
pub fn console_in_memory_law()
    ensures events { EventsPrintIn }
    ensures turns { TurnsPrintIn }
    ensures runs { RunsPrintIn }
{}
