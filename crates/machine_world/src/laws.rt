//! Laws over the definitions. They hold for all worlds, and no code runs.

ghost use Rattle.machine_world.specs.Ages.{EventsAgeFiles};
ghost use Rattle.machine_world.specs.Laws.{InstructionsAreEvents, RefusalsChangeNothingElse, BootsLeaveNoMark, EventsLeaveNoMark, TurnsLeaveNoMark, RunsLeaveNoMark};
ghost use Rattle.machine_world.specs.Longer.{RunsGoOn};
ghost use Rattle.machine_world.specs.Order.{EventsKeepOrder, TurnsKeepOrder, RunsKeepOrder, BootsBeginInOrder, EventsKeepCounted, TurnsKeepCounted, RunsKeepCounted, BootsBeginCounted};
ghost use Rattle.machine_world.specs.Others.{EventsLeaveOthers};
ghost use Rattle.machine_world.specs.Placements.{MapsAreExact, StartsAreExact, ExecsAreExact};
ghost use Rattle.machine_world.specs.Programs.{BootsLoadPrograms, TurnsLoadPrograms, RunsLoadPrograms};

/// Instructions of one process, one after the other, are events.
pub fn instructions_law()
    ensures { InstructionsAreEvents }
{}

/// Each load note names a program that is there.
pub fn programs_law()
    ensures boot { BootsLoadPrograms }
    ensures turns { TurnsLoadPrograms }
    ensures runs { RunsLoadPrograms }
{}

/// A system call that is refused changes nothing but the reply, the next instruction, the notes and the counts of events.
pub fn refused_calls_law()
    ensures { RefusalsChangeNothingElse }
{}

/// Between two events no pipe is marked: whoever waits on one that changed goes on behind the event that changed it.
pub fn marks_law()
    ensures boots { BootsLeaveNoMark }
    ensures events { EventsLeaveNoMark }
    ensures turns { TurnsLeaveNoMark }
    ensures runs { RunsLeaveNoMark }
{}

/// An event of a process leaves the registers, the space and the table of every other process, every other space and every other
/// table of descriptors as they were. Open files, which tables share, may change.
pub fn others_law()
    ensures { EventsLeaveOthers }
{}

/// Every event keeps the nodes a tree of names, and all counts exact: an open file counts the descriptors that share it, and a
/// node the open files that hold it. So it is in every world of a run that boots over such a tree.
pub fn counts_law()
    ensures boots { BootsBeginInOrder }
    ensures events { EventsKeepOrder }
    ensures turns { TurnsKeepOrder }
    ensures runs { RunsKeepOrder }
{}

/// Every event keeps it that what is open is counted exactly, whatever the tree: how many descriptors share an open file, and which
/// ends of a pipe are open. So it is in every world of a run before which nothing is open.
pub fn open_files_law()
    ensures boots { BootsBeginCounted }
    ensures events { EventsKeepCounted }
    ensures turns { TurnsKeepCounted }
    ensures runs { RunsKeepCounted }
{}

/// The bytes of a file change only with its count of changes, as long as that is below its end, 2^64 - 1, and a number is given
/// once: so it is of every event.
pub fn ages_law()
    ensures { EventsAgeFiles }
{}

/// A program's block, and a mapping that shares no copy, begin at the first page of the free run that the placement gives. Where it
/// gives none, a start line whose program is there and whose frame fits finds no run, and an mmap2 that isn't refused before and
/// finds no copy is ENOMEM; so is an execve whose program is there and whose frame fits, while the old space is held.
pub fn placement_law()
    ensures starts { StartsAreExact }
    ensures mmap2 { MapsAreExact }
    ensures execs { ExecsAreExact }
{}

/// A run by a longer list of quanta goes on from where a shorter one left it, with the traces of both; and where that ended otherwise
/// than for want of quanta, it is the whole run. So a run that is made one quantum at a time is the run of all.
pub fn longer_runs_law()
    ensures { RunsGoOn }
{}
