//! Laws over the definitions. They hold for all worlds, and no code runs.

ghost use Rattle.waits_laws.specs.Laws.{BootsWaitWell, EventsKeepWaits, TurnsKeepWaits, RunsKeepWaits, StuckRunsWait};

/// Each process that waits stands at a call that would wait again, for just what it waits for; no two processes have one table of
/// descriptors; and each process that stands still does so for its vfork child, which lives and runs in its space. It is so at
/// boot, and every event, turn and run keeps it. So where a run is stuck, each process that lives waits so, or stands still so.
pub fn waits_law()
    ensures boots { BootsWaitWell }
    ensures events { EventsKeepWaits }
    ensures turns { TurnsKeepWaits }
    ensures runs { RunsKeepWaits }
    ensures stuck { StuckRunsWait }
{}
