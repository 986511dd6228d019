//! Notes for which memory was made ready before.

ghost use Rattle.std.specs.Prelude.{◌≡◌, ◌-◌, ◌≤◌, ◌∷◌, map, true, OnErr, OnOk};
ghost use Rattle.call_log.specs.Log.{may_keep};
ghost use Rattle.call_log.specs.Notes.{has_room, weight_of};
ghost use Rattle.call_log.specs.Values.{got_value, note_value};
ghost use Rattle.kept_parts.specs.Calls.{noted_call};

use call_log::{Entry, Got, Log, Note};
use file_calls::Call;

/// Keeps a note. It finds its memory.
pub fn keep(log: &mut Log, note: Note)
    requires spare { 1 ≤ log.old.spare }
    requires kept { may_keep log.old.notes (note_value note) ≡ true }
    ensures notes { log.new.notes ≡ note_value note ∷ log.old.notes }
    ensures spare { log.new.spare ≡ log.old.spare - 1 }
{
    if log.push(note).is_err() {
        unreachable!();
    }
}

/// Notes a call with its reply and the bytes that it got. There is room and memory for its note.
pub(crate) fn note_call(log: &mut Log, call: Call, reply: u32, got: Vec<Got>)
    requires spare { 1 ≤ log.old.spare }
    requires room { has_room log.old.notes (weight_of call.sent.items (map got_value got.items)) ≡ true }
    ensures notes { log.new.notes ≡ noted_call call reply (map got_value got.items) ∷ log.old.notes }
    ensures spare { log.new.spare ≡ log.old.spare - 1 }
{
    let Call {
        pid,
        number,
        args,
        sent,
        ..
    } = call;
    keep(
        log,
        Note::Call(Entry {
            pid,
            call: number,
            args,
            sent,
            reply,
            got,
        }),
    );
}

/// What comes of a step for whose notes memory was made ready. Where it failed there are none, and the log keeps no memory ready.
pub fn or_unreserve<T, E>(log: &mut Log, step: Result<T, E>) -> Result<T, E>
    ensures same { result ≡ step }
    ensures notes { log.new.notes ≡ log.old.notes }
    ensures done { OnOk result (log.new.spare ≡ log.old.spare) }
    ensures failed { OnErr result (log.new.spare ≡ 0) }
{
    if step.is_err() {
        log.unreserve();
    }
    step
}
