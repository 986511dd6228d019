//! The log of a run.

ghost use Rattle.std.specs.Prelude.{◌≡◌, ◌+◌, ◌-◌, ◌^◌, min, max, [], drop, map, reverse, IfOk, OnErr};
ghost use Rattle.call_log.specs.Notes.{has_room, weight_of, calls_in, bytes_in};
ghost use Rattle.call_log.specs.Values.{note_value, entry_value};
ghost use Rattle.call_log.specs.Log.{may_keep, Pushes};

use crate::note::{Entry, Note};
use std::alloc::{AllocError, Global};
use std::marker::Model;

/// The most calls that a log keeps.
const MOST_CALLS: u32 = 1_048_576;

/// The most sent and got bytes that it keeps.
const MOST_BYTES: u64 = 67_108_864;

/// Why a note isn't kept.
#[derive(Clone, Copy, PartialEq, Eq)]
pub enum LogFault {
    /// The call passes the limits of the log.
    Full,
    /// Out of host memory.
    Memory,
}

/// The notes of a run, with the sums that its limits are about.
#[derive(Drop)]
pub struct Log {
    notes: Vec<Note>,
    /// For how many notes more memory is kept ready.
    ready: u32,
    calls: u32,
    bytes: u64,
}

impl Model for Log {
    ghost use Rattle.call_log.specs.Log.{KeptNotes};

    ghost Value = { KeptNotes };

    ghost use Rattle.call_log.specs.Inside.{kept, Counted};

    ghost view = { kept };

    ghost invariant = { Counted };
}

impl Log {
    /// A log without notes.
    pub fn new(alloc: Global) -> Result<Log, AllocError>
        ensures { IfOk result (λ log. log ≡ record { notes = []; spare = 0 }) }
    {
        Ok(Log {
            notes: Vec::new(alloc),
            ready: 0,
            calls: 0,
            bytes: 0,
        })
    }

    /// Keeps a note. After a fault the log is as before.
    pub fn push(&mut self, note: Note) -> Result<(), LogFault>
        ensures { Pushes self.old (note_value note) self.new result }
    {
        if !self.may_keep(&note) {
            return Err(LogFault::Full);
        }
        if self.notes.reserve(1).is_err() {
            return Err(LogFault::Memory);
        }
        self.calls += calls_in(&note);
        self.bytes += bytes_in(&note);
        self.notes.push_reserved(note);
        self.ready = self.ready.saturating_sub(1);
        Ok(())
    }

    /// Takes the newest note back, if there is one.
    pub fn take_back(&mut self)
        ensures { self.new ≡ record self.old { notes = drop 1 self.old.notes } }
    {
        if let Some(note) = self.notes.pop() {
            self.calls -= calls_in(&note);
            self.bytes -= bytes_in(&note);
        }
    }

    fn may_keep(&self, note: &Note) -> bool
        ensures { result ≡ may_keep self.now.notes (note_value note.now) }
    {
        match note {
            Note::Call(entry) => self.room(weight(entry)),
            _ => true,
        }
    }

    /// Whether a call with so many sent and got bytes can be kept.
    pub fn room(&self, bytes: u64) -> bool
        ensures { result ≡ has_room self.now.notes bytes }
    {
        self.calls < MOST_CALLS && bytes <= MOST_BYTES - self.bytes
    }

    /// How many notes are sure to find memory: so many can be pushed before one can answer Memory.
    pub fn spare(&self) -> u32
        ensures { result ≡ self.now.spare }
    {
        self.ready
    }

    /// Keeps memory ready for so many notes, or for as many as it was before.
    pub fn reserve(&mut self, notes: u32) -> Result<(), AllocError>
        ensures same { self.new.notes ≡ self.old.notes }
        ensures spare { IfOk result (λ _. self.new.spare ≡ max self.old.spare notes) }
        ensures unchanged { OnErr result (self.new ≡ self.old) }
    {
        if notes > self.ready {
            self.notes.reserve(notes as usize)?;
            self.ready = notes;
        }
        Ok(())
    }

    /// Keeps no memory ready any more.
    pub fn unreserve(&mut self)
        ensures { self.new ≡ record self.old { spare = 0 } }
    {
        self.ready = 0;
    }

    /// The notes, oldest first.
    pub fn notes(&self) -> &[Note]
        ensures { self.now.notes ≡ reverse (map note_value result.now) }
    {
        &self.notes
    }
}

fn calls_in(note: &Note) -> u32
    ensures { result ≡ calls_in (note_value note.now) }
{
    match note {
        Note::Call(_) => 1,
        _ => 0,
    }
}

fn bytes_in(note: &Note) -> u64
    ensures { result ≡ min (bytes_in (note_value note.now)) (2 ^ 64 - 1) }
{
    match note {
        Note::Call(entry) => weight(entry),
        _ => 0,
    }
}

/// The bytes that a call's note holds, or the most that a `u64` says where they are more.
fn weight(entry: &Entry) -> u64
    ensures { result ≡ min (weight_of (entry_value entry.now).sent (entry_value entry.now).got) (2 ^ 64 - 1) }
{
    let mut weight = entry.sent.len() as u64;
    for got in &entry.got {
        weight = weight.saturating_add(got.bytes.len() as u64);
    }
    weight
}
