//! What a trace says of a run.

ghost use Rattle.std.specs.Prelude.{◌≡◌, ◌++◌, map, length, IfOk};
ghost use Rattle.std.specs.List.{flat_map};
ghost use Rattle.call_log.specs.Values.{note_value};
ghost use Rattle.call_log.specs.Programs.{IsProgramBelow, paths_of};
ghost use Rattle.trace_text.specs.Texts.{shown_text, counts_text, trace_texts, AreProgramsBelow};

use crate::counting::{count_line, counts, shown_call};
use crate::lines::push_line;
use call_log::Note;
use std::alloc::{AllocError, Global};

/// The notes of a run, its calls as trace lines, with a pid only those of this process, and behind them the counts of the
/// shown calls if they are asked for. `paths` are those of the programs, in their order.
#[tactic(auto, unfolding(crate::specs::Texts::trace_texts))]
pub fn trace_texts(
    alloc: Global,
    notes: &[Note],
    paths: &[Vec<u8>],
    pid: Option<u32>,
    counted: bool,
) -> Result<Vec<u8>, AllocError>
    requires { AreProgramsBelow (length paths.now) (map note_value notes.now) }
    ensures { IfOk result (λ text. text.items ≡ trace_texts pid counted (paths_of paths.now) (map note_value notes.now)) }
{
    let mut text = Vec::new(alloc);
    for note in notes {
        push_note(&mut text, note, paths, pid)?;
    }
    if counted {
        push_counts(alloc, &mut text, notes, pid)?;
    }
    Ok(text)
}

fn push_note(
    text: &mut Vec<u8>,
    note: &Note,
    paths: &[Vec<u8>],
    pid: Option<u32>,
) -> Result<(), AllocError>
    requires { IsProgramBelow (length paths.now) (note_value note.now) }
    ensures { IfOk result (λ _. text.new.items ≡ text.old.items ++ shown_text pid (paths_of paths.now) (note_value note.now)) }
{
    match note {
        Note::Call(_) => match shown_call(note, pid) {
            Some(entry) => push_line(text, entry),
            None => Ok(()),
        },
        _ => call_log::push_line(text, note, paths),
    }
}

fn push_counts(
    alloc: Global,
    text: &mut Vec<u8>,
    notes: &[Note],
    pid: Option<u32>,
) -> Result<(), AllocError>
    ensures { IfOk result (λ _. text.new.items ≡ text.old.items ++ counts_text pid (map note_value notes.now)) }
{
    for count in &counts(alloc, notes, pid)? {
        let line = count_line(alloc, count)?;
        text.extend_from_slice(&line)?;
    }
    Ok(())
}
