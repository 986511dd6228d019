//! What a system call may read and write.

ghost use Rattle.std.specs.Prelude.{◌≡◌, ◌≤◌, IfOk, length, map, slice_get, Some};
ghost use Rattle.call_log.specs.Values.{note_value};
ghost use Rattle.mmap_rules.specs.Held.{Held};
ghost use Rattle.memory_world.specs.Physical.{has_stray};
ghost use Rattle.kept_parts.specs.Noted.{first_noted};
ghost use Rattle.kept_parts.specs.Reach.{Reaches, whole_table};
ghost use Rattle.kept_parts.specs.Regular.{HasSpace};

use crate::home::home;
use crate::kept::KeptParts;
use call_log::Note;
use mmap_rules::{Owners, PageOwner};
use region_watch::Mode;
use rv32im_step::Access;
use std::alloc::{AllocError, Global};

/// The table that owns each byte of a memory of so many pages.
pub(crate) fn whole_table(alloc: Global, pages: u32) -> Result<Owners, AllocError>
    requires { pages ≤ 16384 }
    ensures { IfOk result (λ table. table ≡ whole_table pages) }
{
    let page = PageOwner {
        from: 0,
        write: true,
        uses: 1,
    };
    Ok(Owners::of(vec![in alloc; page; pages as usize]?))
}

impl KeptParts {
    /// The table of the bytes that the accesses of an event may reach from the space of a number, which lives, where they are watched in
    /// this mode: its own, or all of memory.
    pub fn table_of(&self, number: u32, mode: Mode) -> &Owners
        requires { HasSpace self.now.spaces number }
        ensures { (h : Held) → slice_get self.now.spaces number ≡ Some (Some h) → Reaches mode (length self.now.regions) h result.now }
    {
        match mode {
            Mode::Halt => home(&self.spaces, number).owners(),
            Mode::GoOn => &self.whole,
        }
    }
}

/// The first stray access among notes that stand oldest first. It looks through them.
pub fn first_stray(notes: &[Note]) -> Option<Access>
    ensures { result ≡ first_noted (map note_value notes.now) }
{
    for note in notes {
        if let Note::Stray { access, .. } = note {
            return Some(*access);
        }
    }
    None
}

/// Whether the note of a stray access is among these. It looks through them.
pub(crate) fn has_stray(notes: &[Note]) -> bool
    ensures { result ≡ has_stray (map note_value notes.now) }
{
    first_stray(notes).is_some()
}
