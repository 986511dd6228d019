//! What a machine tells that stopped, by what is asked for.
ghost use Rattle.std.specs.Prelude.{◌≡◌, map, sum_by};
ghost use Rattle.call_log.specs.Values.{note_value};
ghost use Rattle.machine_world.specs.World.{World};
ghost use Rattle.flat_machine.specs.State.{world};
ghost use Rattle.file_commands.specs.Ending.{done_ending};
ghost use Rattle.suite_top.specs.Telling.{exit_code, demo_text, HasEndingBehind, EndsWith, IsReported, IsTraced, IsTold, telling_value};

use crate::report::{report, status_of, trace_report};
use crate::telling::Telling;
use call_log::{How, Note};
use file_commands::{Answer, Status, texts};
use flat_machine::{End, Machine};
use std::alloc::{AllocError, Global};

/// What a machine tells that stopped so, with what is shown behind its notes. Its console isn't in the answer's `out`, but belongs in
/// front of it.
pub fn told(
    alloc: Global,
    machine: &Machine,
    telling: Telling<'_>,
    shown: &str,
    end: End,
) -> Result<Answer, AllocError>
    ensures { IsTold (telling_value telling.entry) shown.now machine.now end result }
{
    match telling {
        Telling::Report(options) => reported(alloc, machine, options.log, shown, end),
        Telling::Trace(options) => traced(alloc, machine, options.pid, options.counted, shown, end),
        Telling::Demo { programs } => match end {
            End::AllEnded => demonstrated(alloc, machine, programs),
            End::Stuck | End::Stray(_) | End::OutOfQuanta | End::LogFull => {
                reported(alloc, machine, false, shown, end)
            }
        },
    }
}

/// Behind the console, the report.
fn reported(
    alloc: Global,
    machine: &Machine,
    log: bool,
    shown: &str,
    end: End,
) -> Result<Answer, AllocError>
    ensures { IsReported log shown.now machine.now end result }
{
    let report = report(alloc, machine, log, shown, end)?;
    Ok(ended_with(alloc, report, end))
}

/// Behind the console, the report with a trace.
fn traced(
    alloc: Global,
    machine: &Machine,
    pid: Option<u32>,
    counted: bool,
    shown: &str,
    end: End,
) -> Result<Answer, AllocError>
    ensures { IsTraced pid counted shown.now machine.now end result }
{
    let report = trace_report(alloc, machine, pid, counted, shown, end)?;
    Ok(ended_with(alloc, report, end))
}

/// Behind the console, this report.
fn ended_with(alloc: Global, report: Vec<u8>, end: End) -> Answer
    ensures { (w : World) → EndsWith report.items w end result }
{
    Answer {
        status: status_of(end),
        out: Vec::new(alloc),
        report,
    }
}

/// Behind the console, the line of a demo.
fn demonstrated(alloc: Global, machine: &Machine, programs: u32) -> Result<Answer, AllocError>
    ensures { HasEndingBehind (world machine.now) (done_ending (demo_text programs (world machine.now))) result }
{
    let exits = exit_sum(machine.notes());
    let length = machine.console().len();
    let line = texts::demo_line(alloc, programs, machine.events(), length, exits)?;
    Ok(Answer {
        status: Status::Done,
        out: line.into_bytes(),
        report: Vec::new(alloc),
    })
}

/// The exit code of a process that ended, and 0 of any other note.
fn exit_code(note: &Note) -> u8
    ensures { result ≡ exit_code (note_value note.now) }
{
    match note {
        Note::End {
            how: How::Exit(code),
            ..
        } => *code,
        _ => 0,
    }
}

fn exit_sum(notes: &[Note]) -> u128
    ensures { result ≡ sum_by exit_code (map note_value notes.now) }
{
    let mut sum = 0;
    for note in notes {
        sum += u128::from(exit_code(note));
    }
    sum
}
