//! Laws over the definitions. They hold for all worlds, and no code runs.

ghost use Rattle.go_on_laws.specs.Marks.{OpeningsHaveNoMark, EventsHaveNoMark, TurnsHaveNoMark, RunsHaveNoMark};
ghost use Rattle.go_on_laws.specs.OwnBytes.{ShownBytesAreThere, RunsHaveOwnBytes};
ghost use Rattle.go_on_laws.specs.Refusals.{RefusalsLeaveMemory, RefusedEventsLeaveMemory};
ghost use Rattle.go_on_laws.specs.Laws.{BootsGoOn, BootsNoteNoStray, EventsGoOn, FullEventsGoOn, TurnsGoOn, RunsGoOn, RunsNeverStray};

/// Up to its first stray access a run that goes on is the run of private spaces: the one memory stands for the world at boot, and behind
/// each event, turn and run in which nothing strays, which end alike; and where an access strays, what goes on only adds to the notes and
/// to the console of the run that ends there, with that access as its newest note. No run
/// that goes on ends at a stray access.
pub fn go_on_law()
    ensures boots { BootsGoOn }
    ensures unstrayed { BootsNoteNoStray }
    ensures events { EventsGoOn }
    ensures full { FullEventsGoOn }
    ensures turns { TurnsGoOn }
    ensures runs { RunsGoOn }
    ensures never { RunsNeverStray }
{}

/// A system call that is refused in the one memory changes its caller's a0 and pc, the notes and the counts of events, and nothing else: no
/// byte of memory, no other process, no file. Its event may note the run's first stray access beside it.
pub fn refused_in_memory_law()
    ensures calls { RefusalsLeaveMemory }
    ensures events { RefusedEventsLeaveMemory }
{}

/// Between two events no pipe is marked over one memory either: in the opening world if it was so in the world of private spaces, and
/// behind every event, turn and run that finds it so, before the first stray access and behind it.
pub fn marks_in_memory_law()
    ensures openings { OpeningsHaveNoMark }
    ensures events { EventsHaveNoMark }
    ensures turns { TurnsHaveNoMark }
    ensures runs { RunsHaveNoMark }
{}

/// In every world of a run, which ends at its first stray access, the bytes of a space are there exactly in its own ranges: each address of its
/// own has a byte, and no other one has. So it is of every world for which the one memory stands.
pub fn own_bytes_law()
    ensures stands { ShownBytesAreThere }
    ensures runs { RunsHaveOwnBytes }
{}
