//! The report of a run.
ghost use Rattle.std.specs.Prelude.{◌≡◌, ◌++◌, map, length, IfOk, option_map, string_bytes};
ghost use Rattle.std.specs.List.{flat_map};
ghost use Rattle.call_log.specs.Values.{note_value};
ghost use Rattle.call_log.specs.Programs.{IsProgramBelow, paths_of};
ghost use Rattle.machine_world.specs.Programs.{AreLoaded};
ghost use Rattle.flat_machine.specs.State.{world};
ghost use Rattle.suite_top.specs.Report.{is_told, note_text, bytes_text, dump_line, shown_of, dumps_of, stop_line, IsStopWord, IsReportOf, IsReport, IsTraceReport, IsStatus};

use call_log::{Note, push_line};
use file_commands::Status;
use file_commands::texts::address_words;
use flat_machine::{End, Machine};
use manifest_text::Dump;
use std::alloc::{AllocError, Global};
use trace_text::trace_texts;

/// The notes of a run with its calls if they are asked for, what is shown behind them, and why it stopped.
pub fn report(
    alloc: Global,
    machine: &Machine,
    log: bool,
    shown: &str,
    end: End,
) -> Result<Vec<u8>, AllocError>
    ensures { IfOk result (λ text. IsReport log shown.now machine.now end text.items) }
{
    let notes = notes_text(alloc, log, machine.notes(), machine.paths())?;
    finished(alloc, notes, machine, shown, end)
}

/// The notes of a run with its calls as a trace, with a pid only those of this process, and their counts if they
/// are asked for; what is shown behind them, and why it stopped.
pub fn trace_report(
    alloc: Global,
    machine: &Machine,
    pid: Option<u32>,
    counted: bool,
    shown: &str,
    end: End,
) -> Result<Vec<u8>, AllocError>
    ensures { IfOk result (λ text. IsTraceReport pid counted shown.now machine.now end text.items) }
{
    let notes = trace_texts(alloc, machine.notes(), machine.paths(), pid, counted)?;
    finished(alloc, notes, machine, shown, end)
}

/// What is told of the notes, and behind it what is shown and why the run stopped.
fn finished(
    alloc: Global,
    notes: Vec<u8>,
    machine: &Machine,
    shown: &str,
    end: End,
) -> Result<Vec<u8>, AllocError>
    ensures { IfOk result (λ text. IsReportOf notes.items shown.now machine.now end text.items) }
{
    let stopped = stop_line(alloc, stop_word(end), machine.events())?;
    let mut text = notes;
    text.extend_from_slice(shown.as_bytes())?;
    text.extend_from_slice(stopped.as_bytes())?;
    Ok(text)
}

/// The status of a run that stopped so.
pub fn status_of(end: End) -> Status
    ensures { IsStatus end result }
{
    match end {
        End::AllEnded => Status::Done,
        End::Stuck => Status::Stuck,
        End::Stray(_) => Status::Stray,
        End::OutOfQuanta => Status::OutOfQuanta,
        End::LogFull => Status::LogFull,
    }
}

fn is_told(log: bool, note: &Note) -> bool
    ensures { result ≡ is_told log (note_value note.now) }
{
    match note {
        Note::Call(_) => log,
        _ => true,
    }
}

fn push_note(
    text: &mut Vec<u8>,
    log: bool,
    note: &Note,
    paths: &[Vec<u8>],
) -> Result<(), AllocError>
    requires { IsProgramBelow (length paths.now) (note_value note.now) }
    ensures { IfOk result (λ _. text.new.items ≡ text.old.items ++ note_text log (paths_of paths.now) (note_value note.now)) }
{
    if is_told(log, note) {
        push_line(text, note, paths)?;
    }
    Ok(())
}

fn notes_text(
    alloc: Global,
    log: bool,
    notes: &[Note],
    paths: &[Vec<u8>],
) -> Result<Vec<u8>, AllocError>
    requires { AreLoaded (length paths.now) (map note_value notes.now) }
    ensures { IfOk result (λ text. text.items ≡ flat_map (note_text log (paths_of paths.now)) (map note_value notes.now)) }
{
    let mut text = Vec::new(alloc);
    for note in notes {
        push_note(&mut text, log, note, paths)?;
    }
    Ok(text)
}

/// The bytes that are shown: the process's own, or, of a run that goes on, those of memory.
fn shown(machine: &Machine, dump: Dump) -> Result<Option<Vec<u8>>, AllocError>
    ensures { IfOk result (λ found. option_map (λ bytes. bytes.items) found ≡ shown_of machine.now dump.pid dump.addr dump.len) }
{
    machine.bytes(dump.pid, dump.addr, dump.len)
}

/// Two digits a byte, or `none`.
fn bytes_text(alloc: Global, machine: &Machine, dump: Dump) -> Result<String, AllocError>
    ensures { IfOk result (λ text. string_bytes text ≡ bytes_text (shown_of machine.now dump.pid dump.addr dump.len)) }
{
    match shown(machine, dump)? {
        Some(bytes) => hex::encode(alloc, &bytes),
        None => String::from_str(alloc, "none"),
    }
}

/// `dump PID 0xADDR LEN HEX`
fn dump_line(alloc: Global, machine: &Machine, dump: Dump) -> Result<String, AllocError>
    ensures { IfOk result (λ line. string_bytes line ≡ dump_line (shown_of machine.now dump.pid dump.addr dump.len) dump) }
{
    let pid = dump.pid;
    let address = address_words(alloc, dump.addr)?;
    let len = dump.len;
    let bytes = bytes_text(alloc, machine, dump)?;
    format!(in alloc; "dump {pid} {address} {len} {bytes}\n")
}

/// The lines of the dumps.
pub fn dumps_text(alloc: Global, machine: &Machine, dumps: &[Dump]) -> Result<String, AllocError>
    ensures { IfOk result (λ text. string_bytes text ≡ dumps_of machine.now dumps.now) }
{
    let mut text = String::new(alloc);
    for dump in dumps {
        let line = dump_line(alloc, machine, *dump)?;
        text.push_str(&line)?;
    }
    Ok(text)
}

fn stop_word(end: End) -> &'static str
    ensures { IsStopWord end result.now }
{
    match end {
        End::AllEnded => "done",
        End::Stuck => "stuck",
        End::Stray(_) => "stray",
        End::OutOfQuanta => "quanta",
        End::LogFull => "log",
    }
}

/// `stop WORD events N`
fn stop_line(alloc: Global, word: &str, events: u64) -> Result<String, AllocError>
    ensures { IfOk result (λ line. string_bytes line ≡ stop_line word.now events) }
{
    format!(in alloc; "stop {word} events {events}\n")
}
