//! The program over any host and any sinks.
ghost use Rattle.std.specs.Prelude.{◌≡◌, map, drop, IfOk, string_bytes};
ghost use Rattle.std.specs.Process.{exit_status};
ghost use Rattle.std.specs.IoError.{error_kind};
ghost use Rattle.std.specs.Vec.Iter.{into_iter_items};
ghost use Rattle.flatc.specs.Pages.{page_of};
ghost use Rattle.flatc.specs.Program.{IsReadOf, EndsBy, Ends, Exits};
ghost use Rattle.file_commands.specs.Observed.{observed, observed_sink};
ghost use Rattle.suite_top.specs.Placements.{ArePlacements};
ghost use Rattle.suite_top.specs.Points.{ArePoints};

use crate::pages::{HELP, VERSION, page_of};
use host_io::{Host, Sink};
use page_runs::Run;
use std::alloc::{AllocError, Global};
use std::process::ExitCode;
use std::rt::Env;
use std::{env, io};
use suite_top::{MEMORY_LINE, Placements, Points, Status, deliver, suite};
use watch_points::Span;

/// The arguments after the program's name, as they were read.
#[derive(Drop)]
pub enum Arguments {
    Words(Vec<String>),
    /// One of them isn't text.
    NotText,
    /// There was no memory for them.
    OutOfMemory,
}

/// A chooser for each placement, and a watch point for each kind of hit.
#[derive(Drop)]
pub struct Choices<A, B, C, P, Q> {
    pub place: Placements<A, B, C>,
    pub points: Points<P, Q>,
}

/// The arguments of a process. Which those are is told by no clause of the library; what is made of them is said at `arguments_of`.
pub fn read_arguments(rt: &(impl Env + AllocGlobal)) -> Arguments {
    arguments_of(rt.alloc(), env::args(rt))
}

/// Those after the program's name, of what was read of a process.
fn arguments_of(alloc: Global, read: io::Result<env::Args>) -> Arguments
    ensures { IsReadOf into_iter_items error_kind read result }
{
    match read {
        Ok(all) => match arguments_after_name(alloc, all) {
            Ok(words) => Arguments::Words(words),
            Err(AllocError) => Arguments::OutOfMemory,
        },
        Err(error) => match error.kind() {
            io::ErrorKind::OutOfMemory => Arguments::OutOfMemory,
            _ => Arguments::NotText,
        },
    }
}

/// All arguments but the first, which is the program's name.
fn arguments_after_name(alloc: Global, arguments: env::Args) -> Result<Vec<String>, AllocError>
    ensures { IfOk result (λ rest. rest.items ≡ drop 1 (into_iter_items arguments)) }
{
    arguments.skip(1).collect(alloc)
}

/// Writes a page of its own, or carries out the command that the arguments are.
pub fn run<H: Host, O: Sink, R: Sink, A, B, C, P, Q>(
    alloc: Global,
    arguments: &[String],
    host: &mut H,
    out: &mut O,
    report: &mut R,
    choices: &Choices<A, B, C, P, Q>,
) -> Status
where
    A: Fn(&[Run], u32) -> Option<usize>,
    B: Fn(&[Run], u32) -> Option<usize>,
    C: Fn(&[Run], u32) -> Option<usize>,
    P: Fn(&[Span], u32, u32) -> bool,
    Q: Fn(&[Span], u32, u32) -> bool,
    requires place { ArePlacements A.pre A.post B.pre B.post C.pre C.post choices.now.place }
    requires points { ArePoints P.pre P.post Q.pre Q.post choices.now.points }
    ensures { EndsBy (page_of HELP.now VERSION.now (map string_bytes arguments.now)) (map string_bytes arguments.now)
        (observed H.told H.faults host.old) (observed H.told H.faults host.new)
        (observed_sink O.told O.faults O.shortages out.old) (observed_sink O.told O.faults O.shortages out.new)
        (observed_sink R.told R.faults R.shortages report.old) (observed_sink R.told R.faults R.shortages report.new) result }
{
    let place = &choices.place;
    let points = &choices.points;
    match page_of(arguments) {
        Some(page) => deliver(alloc, Status::Done, page.as_bytes(), b"", out, report),
        None => suite(alloc, arguments, host, out, report, place, points),
    }
}

/// Runs with the arguments that were read.
pub fn run_read<H: Host, O: Sink, R: Sink, A, B, C, P, Q>(
    alloc: Global,
    arguments: Arguments,
    host: &mut H,
    out: &mut O,
    report: &mut R,
    choices: &Choices<A, B, C, P, Q>,
) -> Status
where
    A: Fn(&[Run], u32) -> Option<usize>,
    B: Fn(&[Run], u32) -> Option<usize>,
    C: Fn(&[Run], u32) -> Option<usize>,
    P: Fn(&[Span], u32, u32) -> bool,
    Q: Fn(&[Span], u32, u32) -> bool,
    requires place { ArePlacements A.pre A.post B.pre B.post C.pre C.post choices.now.place }
    requires points { ArePoints P.pre P.post Q.pre Q.post choices.now.points }
    ensures { Ends (page_of HELP.now VERSION.now) arguments
        (observed H.told H.faults host.old) (observed H.told H.faults host.new)
        (observed_sink O.told O.faults O.shortages out.old) (observed_sink O.told O.faults O.shortages out.new)
        (observed_sink R.told R.faults R.shortages report.old) (observed_sink R.told R.faults R.shortages report.new) result }
{
    let place = &choices.place;
    let points = &choices.points;
    match arguments {
        Arguments::Words(words) => run(alloc, &words, host, out, report, choices),
        Arguments::NotText => suite(alloc, &[], host, out, report, place, points),
        Arguments::OutOfMemory => {
            deliver(
                alloc,
                Status::Memory,
                b"",
                MEMORY_LINE.as_bytes(),
                out,
                report,
            )
        }
    }
}

/// The whole program, from the arguments that were read to its exit status.
pub fn end<H: Host, O: Sink, R: Sink, A, B, C, P, Q>(
    alloc: Global,
    arguments: Arguments,
    host: &mut H,
    out: &mut O,
    report: &mut R,
    choices: &Choices<A, B, C, P, Q>,
) -> ExitCode
where
    A: Fn(&[Run], u32) -> Option<usize>,
    B: Fn(&[Run], u32) -> Option<usize>,
    C: Fn(&[Run], u32) -> Option<usize>,
    P: Fn(&[Span], u32, u32) -> bool,
    Q: Fn(&[Span], u32, u32) -> bool,
    requires place { ArePlacements A.pre A.post B.pre B.post C.pre C.post choices.now.place }
    requires points { ArePoints P.pre P.post Q.pre Q.post choices.now.points }
    ensures { Exits (page_of HELP.now VERSION.now) arguments
        (observed H.told H.faults host.old) (observed H.told H.faults host.new)
        (observed_sink O.told O.faults O.shortages out.old) (observed_sink O.told O.faults O.shortages out.new)
        (observed_sink R.told R.faults R.shortages report.old) (observed_sink R.told R.faults R.shortages report.new) (exit_status result) }
{
    let status = run_read(alloc, arguments, host, out, report, choices);
    ExitCode::from(status.code())
}
