//! Laws of the command `demo`. No code runs.
ghost use Rattle.command_laws.specs.DemoLaws.{DemosConvert, ProgramsAreSpelled, DemosAskNothing, DemosRunWhereTheyOpen, DemosOpenWhereTheyStop, DemosStopOrAreRefused, DemosTellALine, DemosAreAsAlone, DemoEndsAreAsAlone, DemosWaitWell, DemoWorldsAreInOrder, DemoWorldsAreRegular};

/// The programs have no fault, nothing is asked of the host, a demo reaches its machine or is refused, and what one tells that ends well.
pub fn demo_law()
    ensures programs { DemosConvert }
    ensures spelled { ProgramsAreSpelled }
    ensures untouched { DemosAskNothing }
    ensures opens { DemosRunWhereTheyOpen }
    ensures stops { DemosOpenWhereTheyStop }
    ensures early { DemosStopOrAreRefused }
    ensures line { DemosTellALine }
{}

/// Of a demo that reaches its machine the same is said as of a run: each process does what its own program does alone, and ends so;
/// who waits at its end waits well; and each of its worlds, up to the first stray access, has a tree of names and exact counts, and is
/// regular.
pub fn demo_turns_law()
    ensures lives { DemosAreAsAlone }
    ensures ends { DemoEndsAreAsAlone }
    ensures waits { DemosWaitWell }
    ensures counts { DemoWorldsAreInOrder }
    ensures worlds { DemoWorldsAreRegular }
{}
