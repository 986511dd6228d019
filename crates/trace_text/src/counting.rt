//! How often each call was made.

ghost use Rattle.std.specs.Prelude.{◌≡◌, ◌++◌, List, [], map, option_map, OnOk, IfOk};
ghost use Rattle.std.specs.Option.{unwrap_or, option_to_list};
ghost use Rattle.std.specs.Ordering.{nat_cmp};
ghost use Rattle.std.specs.BTreeMap.{get, insert_entry, values};
ghost use Rattle.call_log.specs.Notes.{CallEntry};
ghost use Rattle.call_log.specs.Values.{entry_value, note_value};
ghost use Rattle.trace_text.specs.Counts.{kept, got_len, shown_call, shown_calls, count_of, count_with, tally, counts_of, count_line};

use crate::count::Count;
use crate::error::is_error;
use crate::lines::{push_name, push_number};
use call_log::{Entry, Note};
use std::alloc::{AllocError, Global};
use std::collections::BTreeMap;

impl Count {
    fn none(number: u32) -> Count
        ensures { result ≡ count_of number [] }
    {
        Count {
            number,
            calls: 0,
            errors: 0,
            sent: 0,
            got: 0,
        }
    }

    /// With one more call.
    fn with(self, entry: &Entry) -> Count
        ensures { result ≡ count_with self (entry_value entry.now) }
    {
        Count {
            number: self.number,
            calls: self.calls.saturating_add(1),
            errors: self.errors.saturating_add(u64::from(is_error(entry.reply))),
            sent: self.sent.saturating_add(entry.sent.len() as u64),
            got: self.got.saturating_add(got_len(entry)),
        }
    }
}

/// How many bytes a call wrote into its caller's memory, or the most that fit the type.
fn got_len(entry: &Entry) -> u64
    ensures { result ≡ kept (got_len (entry_value entry.now)) }
{
    let mut len: u64 = 0;
    for got in &entry.got {
        len = len.saturating_add(got.bytes.len() as u64);
    }
    len
}

/// The calls of the notes by number, ascending, and with a pid only those of this process.
pub fn counts(alloc: Global, notes: &[Note], pid: Option<u32>) -> Result<Vec<Count>, AllocError>
    ensures { IfOk result (λ counts. counts.items ≡ counts_of (shown_calls pid (map note_value notes.now))) }
{
    let mut counts = BTreeMap::new(alloc);
    for note in notes {
        add_note(&mut counts, note, pid)?;
    }
    list_of(alloc, counts)
}

fn list_of(alloc: Global, counts: BTreeMap<u32, Count>) -> Result<Vec<Count>, AllocError>
    ensures { IfOk result (λ list. list.items ≡ values counts) }
{
    counts.into_values().collect(alloc)
}

/// The call of a note, if it is shown: each, or with a pid those of this process.
pub(crate) fn shown_call(note: &Note, pid: Option<u32>) -> Option<&Entry>
    ensures { option_map (λ entry. entry_value entry.now) result ≡ shown_call pid (note_value note.now) }
{
    match note {
        Note::Call(entry) if pid.is_none_or(|pid| pid == entry.pid) => Some(entry),
        _ => None,
    }
}

/// Adds the call of a note, if it is shown.
fn add_note(
    counts: &mut BTreeMap<u32, Count>,
    note: &Note,
    pid: Option<u32>,
) -> Result<(), AllocError>
    ensures { OnOk result ((entries : List CallEntry) → counts.old.entries ≡ tally entries →
        counts.new.entries ≡ tally (entries ++ option_to_list (shown_call pid (note_value note.now)))) }
{
    if let Some(entry) = shown_call(note, pid) {
        add(counts, entry)?;
    }
    Ok(())
}

fn add(counts: &mut BTreeMap<u32, Count>, entry: &Entry) -> Result<(), AllocError>
    ensures { OnOk result (counts.new.entries ≡ insert_entry nat_cmp counts.old.entries entry.now.call
        (count_with (unwrap_or (get nat_cmp counts.old entry.now.call) (count_of entry.now.call [])) (entry_value entry.now))) }
{
    let so_far = counts
        .get(&entry.call)
        .copied()
        .unwrap_or(Count::none(entry.call));
    counts.insert(entry.call, so_far.with(entry))?;
    Ok(())
}

/// `count NUMBER NAME calls C errors E sent S got G`, with its newline.
#[tactic(auto, unfolding(crate::specs::Counts::count_line))]
pub fn count_line(alloc: Global, count: &Count) -> Result<Vec<u8>, AllocError>
    ensures { IfOk result (λ text. text.items ≡ count_line count.now) }
{
    let Count {
        number,
        calls,
        errors,
        sent,
        got,
    } = *count;
    let mut text = Vec::new(alloc);
    push_number(&mut text, b"count ", u64::from(number))?;
    text.push(b' ')?;
    push_name(&mut text, number)?;
    push_number(&mut text, b" calls ", calls)?;
    push_number(&mut text, b" errors ", errors)?;
    push_number(&mut text, b" sent ", sent)?;
    push_number(&mut text, b" got ", got)?;
    text.push(b'\n')?;
    Ok(text)
}
