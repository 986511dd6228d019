//! Laws over the definitions. They hold for all worlds, and no code runs.

ghost use Rattle.refusal_laws.specs.Laws.{BootsAreRegular, EventsKeepRegular, TurnsKeepRegular, RunsKeepRegular, ErrnosAreRefusals, EnomemIsExact, NoRunIsExact, BootsWithoutRunAreExact};
ghost use Rattle.refusal_laws.specs.Numbers.{EventsGiveNumbers, TurnsGiveNumbers, RunsGiveNumbers, RunsGiveFewNumbers};

/// Of every world of a run: it is sound, what is open is counted exactly, no pipe is marked, each process is younger than its parent,
/// and no break lies behind memory. It is so at boot, and every event, turn and run keeps it.
pub fn regular_law()
    ensures boots { BootsAreRegular }
    ensures events { EventsKeepRegular }
    ensures turns { TurnsKeepRegular }
    ensures runs { RunsKeepRegular }
{}

/// In such a world each call of which the reply is an errno, whatever call it is, is refused: it changes its caller's a0 and pc, the
/// notes and the counts of events, and nothing else.
pub fn refusals_law()
    ensures { ErrnosAreRefusals }
{}

/// In such a world a call is answered ENOMEM exactly where it is an mmap2 or an execve that isn't refused for another cause, what it
/// reads doesn't stray, the log has room for its note, it needs a run of its own, and the placement gives none of the free runs of the
/// world for its pages: an execve needs one while the old space is held, and an mmap2 where no copy that is there has its pages.
pub fn enomem_law()
    ensures { EnomemIsExact }
{}

/// A start line finds no run exactly where its path leads to a program, the frame fits into its stack, and the placement gives no run for
/// the block; and a boot ends so exactly at such a line, behind those that were loaded.
pub fn no_run_law()
    ensures starts { NoRunIsExact }
    ensures boots { BootsWithoutRunAreExact }
{}

/// A number of a node, and one of a pipe, is given only by a call that is noted, one a call at most. So a run from a boot gives no more
/// of them, beside those of its tree, than the log keeps calls, and no more tables beside those at boot: numbers of 32 bits don't run out.
pub fn numbers_law()
    ensures events { EventsGiveNumbers }
    ensures turns { TurnsGiveNumbers }
    ensures runs { RunsGiveNumbers }
    ensures few { RunsGiveFewNumbers }
{}
