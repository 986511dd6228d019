//! Laws over the definitions. No code runs.

ghost use Rattle.memory_world.specs.Courses.{OwnInstructionsLead, WholeInstructionsLead, OpeningsShow, EventsShow, TurnsShow, RunsShow};
ghost use Rattle.memory_world.specs.Growth.{EventsAdd, TurnsAdd, RunsAdd, EventsLeavePrograms, TurnsLeavePrograms, RunsLeavePrograms};
ghost use Rattle.memory_world.specs.Longer.{RunsGoOnIn};
ghost use Rattle.memory_world.specs.Order.{OpeningsKeepOrder, EventsKeepOrderIn, TurnsKeepOrderIn, RunsKeepOrderIn};
ghost use Rattle.memory_world.specs.Wider.{MeaningWidens, InstructionsWiden, SentWidens, PutWidens};

/// What a program does in a part of memory it does in all of it, as long as it doesn't stray: an instruction and several, the bytes
/// that a call reads, and those that it writes.
pub fn wider_law()
    ensures meaning { MeaningWidens }
    ensures instructions { InstructionsWiden }
    ensures sent { SentWidens }
    ensures put { PutWidens }
{}

/// Instructions of one process, one after the other, are events over one memory: over the process's own bytes, and, once a stray
/// access was noted, over all of memory.
pub fn instructions_in_law()
    ensures own { OwnInstructionsLead }
    ensures whole { WholeInstructionsLead }
{}

/// Every space has what memory has in its own ranges: in the opening world, and behind every event, turn and run.
pub fn shown_law()
    ensures openings { OpeningsShow }
    ensures events { EventsShow }
    ensures turns { TurnsShow }
    ensures runs { RunsShow }
{}

/// A run only adds to its notes and to its console: what was there stays.
pub fn notes_remain_law()
    ensures events { EventsAdd }
    ensures turns { TurnsAdd }
    ensures runs { RunsAdd }
{}

/// Every event keeps the nodes a tree of names, and all counts exact, behind the first stray access as before it: an open file counts the
/// descriptors that share it, and a node the open files that hold it. The opening memory has them as its world has.
pub fn counts_in_memory_law()
    ensures openings { OpeningsKeepOrder }
    ensures events { EventsKeepOrderIn }
    ensures turns { TurnsKeepOrderIn }
    ensures runs { RunsKeepOrderIn }
{}

/// The programs, the pages and the choice of free runs stay, and load notes name programs that are
/// there, if they did before.
pub fn physical_programs_law()
    ensures events { EventsLeavePrograms }
    ensures turns { TurnsLeavePrograms }
    ensures runs { RunsLeavePrograms }
{}

/// A run over one memory by a longer list of quanta goes on from where a shorter one left it; and where that ended otherwise than for
/// want of quanta, it is the whole run.
pub fn longer_runs_in_law()
    ensures { RunsGoOnIn }
{}
