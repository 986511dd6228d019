//! Laws over the definitions. They hold for all worlds over one memory, and no code runs.

ghost use Rattle.refusals_in_memory.specs.Regular.{BootsAreRegularIn, EventsKeepRegularIn, TurnsKeepRegularIn, RunsKeepRegularIn};
ghost use Rattle.refusals_in_memory.specs.Refusals.{ErrnosAreRefusedIn};
ghost use Rattle.refusals_in_memory.specs.Enomem.{EnomemIsExactIn};

/// Of the one memory of a run: every space shows it, no pipe is marked, what is open is counted exactly, each process is younger than its
/// parent, and breaks and copies lie in memory. It is so at boot, and every event, turn and run keeps it, before the first stray access
/// and behind it.
pub fn regular_in_memory_law()
    ensures boots { BootsAreRegularIn }
    ensures events { EventsKeepRegularIn }
    ensures turns { TurnsKeepRegularIn }
    ensures runs { RunsKeepRegularIn }
{}

/// Over such a memory each call that an event notes with an errno as its reply, whatever call it is, is refused: the event changes its
/// caller's a0 and pc, the notes and the counts of events, and nothing else. It may note the run's first stray access beside the call.
pub fn refusals_in_memory_law()
    ensures { ErrnosAreRefusedIn }
{}

/// Over such a memory an event notes a call with the reply ENOMEM exactly where its process stands at an mmap2 or an execve that isn't
/// refused for another cause, what the call reads is in memory, the log has room for its note, it needs a run of its own, and the
/// placement gives none of the free runs of the world for its pages. It may note the run's first stray access before the call.
pub fn enomem_in_memory_law()
    ensures { EnomemIsExactIn }
{}
