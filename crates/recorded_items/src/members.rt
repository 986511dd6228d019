//! Who is in a space.

ghost use Rattle.std.specs.Prelude.{◌≡◌, ℕ, ◌-◌, ◌^◌, ◌<◌, ◌∷◌, [], List, OnOk};
ghost use Rattle.call_log.specs.Notes.{Note as NoteValue};
ghost use Rattle.call_log.specs.Values.{entry_value, note_value};
ghost use Rattle.flat_loader.specs.Alone.{is_errno};
ghost use Rattle.recording_laws.specs.Homes.{forks};
ghost use Rattle.recorded_items.specs.Members.{AreMembers, is_member, Puts};

use call_log::{Entry, Note, numbers};
use indexmap::IndexSet;
use std::alloc::{AllocError, Global};

/// The first reply that is a refusal.
const FIRST_ERRNO: u32 = 0xffff_f001;

/// The processes that are in a space after some notes.
#[derive(Drop)]
pub(crate) struct Members {
    /// The number of the space, from 0.
    space: u32,
    /// How many load notes there were.
    loads: u64,
    /// A set, since each call looks its process up and a run may make very many. Those that have ended stay in it.
    pids: IndexSet<u32>,
}

impl Members {
    /// Before the first note.
    pub(crate) fn new(alloc: Global, space: u32) -> Members
        ensures { AreMembers space result [] }
    {
        Members {
            space,
            loads: 0,
            pids: IndexSet::new(alloc),
        }
    }

    /// Whether a process is in the space.
    pub(crate) fn has(&self, pid: u32) -> bool
        ensures { result ≡ is_member pid self.now.pids }
    {
        self.pids.contains(&pid)
    }

    /// One note more: a program that is loaded is in a new space, and a child is where its parent is.
    pub(crate) fn follow(&mut self, note: &Note) -> Result<(), AllocError>
        requires { self.old.loads < 2 ^ 64 - 1 }
        ensures { OnOk result ((space : ℕ) → (notes : List NoteValue) → AreMembers space self.old notes → AreMembers space self.new (note_value note.now ∷ notes)) }
    {
        match note {
            Note::Load { pid, .. } => {
                put(&mut self.pids, *pid, self.loads == u64::from(self.space))?;
                self.loads += 1;
            }
            Note::Call(entry) => {
                if forks(entry) {
                    let inside = self.has(entry.pid);
                    put(&mut self.pids, entry.reply, inside)?;
                }
            }
            Note::End { .. } => {}
            Note::Stray { .. } => {}
        }
        Ok(())
    }
}

/// From now on a process is a member, or isn't.
fn put(pids: &mut IndexSet<u32>, pid: u32, inside: bool) -> Result<(), AllocError>
    ensures { OnOk result (Puts pid inside pids.old pids.new) }
{
    if inside {
        pids.insert(pid)?;
    } else {
        pids.swap_remove(&pid);
    }
    Ok(())
}

/// Whether a call made a process: a clone that wasn't refused. Its reply is the child's pid.
fn forks(entry: &Entry) -> bool
    ensures { result ≡ forks (entry_value entry.now) }
{
    entry.call == numbers::CLONE && !is_errno(entry.reply)
}

/// The last 4,095 words are refusals.
#[tactic(auto, unfolding(flat_loader::specs::Alone::is_errno))]
pub(crate) fn is_errno(reply: u32) -> bool
    ensures { result ≡ is_errno reply }
{
    reply >= FIRST_ERRNO
}
