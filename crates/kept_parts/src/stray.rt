//! A stray access.

ghost use Rattle.std.specs.Prelude.{◌≡◌, IfOk, Some};
ghost use Rattle.memory_world.specs.Physical.{has_stray};
ghost use Rattle.kept_parts.specs.InMemory.{with_range, without_newest};
ghost use Rattle.kept_parts.specs.Regular.{IsRegular};
ghost use Rattle.kept_parts.specs.Serves.{NotesStray};

use crate::keep::keep;
use crate::kept::KeptParts;
use crate::reach::has_stray;
use call_log::Note;
use rv32im_step::Access;
use std::alloc::AllocError;

impl KeptParts {
    /// Whether a stray access was noted. It looks through the notes.
    pub fn has_stray(&self) -> bool
        ensures { result ≡ has_stray self.now.notes }
    {
        has_stray(self.log.notes())
    }

    /// Notes the access of a process that strays.
    pub fn note_stray(&mut self, pid: u32, access: Access) -> Result<(), AllocError>
        ensures strays { NotesStray pid access self.old self.new result }
        ensures kept { IfOk result (λ _. self.new ≡ with_range pid (Some access) self.old) }
        ensures sound { IfOk result (λ _. IsRegular (without_newest self.new)) }
        ensures memory { self.new.mem ≡ self.old.mem }
        ensures files { self.new.files ≡ self.old.files }
    {
        self.log.reserve(1)?;
        keep(&mut self.log, Note::Stray { pid, access });
        Ok(())
    }

    /// Takes back the newest note, where the parts are sound without it, such as that of a stray access whose event finds no memory.
    pub fn take_back(&mut self)
        requires { IsRegular (without_newest self.old) }
        ensures { self.new ≡ without_newest self.old }
    {
        self.log.take_back();
    }
}
