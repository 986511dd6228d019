//! Laws over every run. No code runs.
ghost use Rattle.command_laws.specs.Beside.{MemoryIsInOrder, MemoryIsRegular, RunsEndEarlyAlike, RunsGoOnWell, RunsOnNeverStray, RunsTellWell};
ghost use Rattle.command_laws.specs.Headline.{RunsEndByStatus};
ghost use Rattle.command_laws.specs.HitsAlike.{HitsAlike};
ghost use Rattle.command_laws.specs.RunLaws.{RunsWhereItOpens, OpensWhereItStops, RunsStopOrEndEarly, RunsAreAsAlone, EndsAreAsAlone, RunsWaitWell, WorldsAreInOrder, WorldsAreRegular};
ghost use Rattle.command_laws.specs.ItemsLaws.{TextsAreOfStays, ItemsAreStored, KeepingEndsEarlyAlike};
ghost use Rattle.command_laws.specs.WatchLaws.{WatchesAreRuns, WatchesTellHits};
ghost use Rattle.originals.specs.Originals.{OriginalsAreSame};

/// The headline, of each call of `run`, over any host, sinks, manifest, placement and quanta, by its status. Where it is that of a machine
/// that stopped, status and report are those of the turns of private spaces (with `--go-on`, of the turns over one memory, which are the
/// private ones up to the first stray access), from the world that the loaded files open; `out` took the joined data of the noted writes to
/// the console; and each process did, and ended as, its own program does alone, up to the first stray access. Refused is told by the first
/// fault's one line; each other status comes of a failure that was counted, or of want of memory.
pub fn headline_law()
    ensures { RunsEndByStatus }
{}

/// A run reaches its machine exactly where all files are there and nothing has a fault.
pub fn run_law()
    ensures opens { RunsWhereItOpens }
    ensures stops { OpensWhereItStops }
    ensures early { RunsStopOrEndEarly }
{}

/// The program of an ELF file, relocated by the psABI, is that of the flat file to which it is converted.
pub fn originals_law()
    ensures { OriginalsAreSame }
{}

/// Up to the first stray access each process of a run does what its own program does alone, loaded at its place, under the replies that it
/// had: its calls are those that were kept, and its registers, own ranges and own bytes are those of its space. An ELF file's program is the
/// file itself, relocated by the psABI. And a process ends as its program does alone, by the same exit or signal.
pub fn alone_law()
    ensures lives { RunsAreAsAlone }
    ensures ends { EndsAreAsAlone }
{}

/// Each process that waits at the end of a run would wait again, for just what it waits for. Where the run is stuck, each process
/// that lives waits so, or stands still for its vfork child.
pub fn waits_law()
    ensures { RunsWaitWell }
{}

/// In every world of a run, up to its first stray access, the nodes are a tree of names and all counts are exact: an open file counts the
/// descriptors that share it, and a node the open files that hold it. Of the one memory of a run that goes on it is so all along.
pub fn counts_law()
    ensures worlds { WorldsAreInOrder }
    ensures memory { MemoryIsInOrder }
{}

/// Every world of a run, up to its first stray access, is regular: the laws of `refusal_laws` speak of it. So each reply that is an errno
/// is a refusal there, and ENOMEM comes exactly for want of a run of pages. The one memory of a run that goes on is regular all along, and
/// a reply that is an errno is a refusal there too.
pub fn regular_worlds_law()
    ensures worlds { WorldsAreRegular }
    ensures memory { MemoryIsRegular }
{}

/// With `--go-on` a run whose private spaces reach no stray access ends with the same status and texts, but for dump lines of a process
/// that lives, whose bytes lie in memory and aren't all own; and one whose spaces reach one first tells what they noted, with the stray
/// access, and what they wrote. A run that doesn't reach its machine is the same with it, and none ends
/// with the status Stray. From any sound world, where no access strays, a run hits the same with it as without it, whatever is watched.
pub fn go_on_law()
    ensures worlds { RunsGoOnWell }
    ensures texts { RunsTellWell }
    ensures early { RunsEndEarlyAlike }
    ensures never { RunsOnNeverStray }
    ensures hits { HitsAlike }
{}

/// With `--watch` a run asks for the same files as without it, and ends with the same status and console; one that doesn't reach its machine
/// is the same as a whole. Where it does, the report has just the lines of its hits more, behind the notes.
pub fn watch_law()
    ensures run { WatchesAreRuns }
    ensures report { WatchesTellHits }
{}

/// With `--items N FILE` a run whose machine is reached stores in FILE the text of exactly the items of the Nth stay along its turns: its
/// program as it was loaded, the count of its events, and each of its calls with what a mapping brought; or the line `none` where there
/// is no such load note. No other file changes. It reaches its machine exactly where the run without the option does, and else is the
/// same as a whole.
pub fn items_law()
    ensures texts { TextsAreOfStays }
    ensures files { ItemsAreStored }
    ensures early { KeepingEndsEarlyAlike }
{}
