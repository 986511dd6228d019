//! The end of a process.

ghost use Rattle.std.specs.Prelude.{◌≡◌, ◌≢◌, ℕ, true, List, [], length, None, Some, slice_get, slice_set};
ghost use Rattle.mmap_rules.specs.Held.{Held};
ghost use Rattle.vfork_exec.specs.declared.entry.Entry.{Entry as Listed};
ghost use Rattle.vfork_exec.specs.Procs.{CanRun, process};
ghost use Rattle.machine_world.specs.Event.{at_process, trapped, died};
ghost use Rattle.kept_parts.specs.declared.task.Task.{Task};
ghost use Rattle.kept_parts.specs.Regular.{HasSpace};
ghost use Rattle.kept_parts.specs.Stands.{About, world_of};
ghost use Rattle.memory_world.specs.Physical.{died_in};
ghost use Rattle.kept_parts.specs.InMemory.{physical_of, DiesIn};
ghost use Rattle.kept_parts.specs.Copies.{HoldsFiles};
ghost use Rattle.kept_parts.specs.Recorded.{room_beside};
ghost use Rattle.kept_parts.specs.Serves.{Dies};
ghost use Rattle.kept_parts.specs.Gone.{gone, without_space};
ghost use Rattle.kept_parts.specs.Calls.{LivesIn, Exits};

use crate::keep::{keep, note_call};
use crate::kept::KeptParts;
use crate::task::Task;
use call_log::{How, Note};
use file_calls::Call;
use mmap_rules::Space;
use std::alloc::AllocError;

/// Takes a space that lives from its place.
fn take_space(spaces: &mut [Option<Space>], number: u32) -> Space
    requires { HasSpace spaces.old number }
    ensures space { slice_get spaces.old number ≡ Some (Some result) }
    ensures gone { spaces.new ≡ slice_set spaces.old number None }
{
    match spaces[number as usize].take() {
        Some(space) => space,
        None => unreachable!(),
    }
}

impl KeptParts {
    /// A space goes, in which no process runs, with all its mappings.
    pub(crate) fn give_up(&mut self, number: u32)
        requires there { HasSpace self.old.spaces number }
        requires nobody { (pid : ℕ) → (e : Listed Task) → process self.old.procs pid ≡ Some e → e.value.space ≢ number }
        ensures goes { (h : Held) → slice_get self.old.spaces number ≡ Some (Some h) → self.new ≡ without_space self.old number h }
        ensures holds { HoldsFiles self.old → HoldsFiles self.new }
    {
        let space = take_space(&mut self.spaces, number);
        space.release(&mut self.regions);
    }

    /// A process goes, with its table and all that it has open. Its space goes with it, unless another process lent it.
    fn depart(&mut self, pid: u32, how: How)
        requires { CanRun self.old.procs pid }
        ensures goes { (e : Listed Task) → (h : Held) → LivesIn self.old pid e h → self.new ≡ gone self.old e h how }
        ensures holds { HoldsFiles self.old → HoldsFiles self.new }
    {
        let Task { space, table, .. } = *self.procs.get(pid);
        let lent = self.procs.borrows(pid);
        self.files.drop_table(&mut self.tree, table);
        self.procs.end(pid, how);
        if !lent {
            self.give_up(space);
        }
    }

    /// Ends the process that makes this call, exit or exit_group, by the lowest eight bits of its code. The call is noted
    /// and then the end; there is room for the call's note.
    pub fn exit(&mut self, call: Call) -> Result<(), AllocError>
        requires ready { CanRun self.old.procs call.pid }
        requires room { room_beside self.old (length call.sent.items) ≡ true }
        ensures exits { (e : Listed Task) → (h : Held) → LivesIn self.old call.pid e h → Exits self.old e h call self.new result }
        ensures memory { self.new.mem ≡ self.old.mem }
        ensures holds { HoldsFiles self.old → HoldsFiles self.new }
    {
        self.log.reserve(2)?;
        let got = Vec::new(*self.console.allocator());
        let pid = call.pid;
        let how = How::Exit((call.args[0] % 256) as u8);
        note_call(&mut self.log, call, 0, got);
        keep(&mut self.log, Note::End { pid, how });
        self.recording.pass(self.procs.get(pid).space, 1);
        self.depart(pid, how);
        Ok(())
    }

    /// Ends a process by a signal: its own space goes, and a note is kept.
    pub fn die(&mut self, pid: u32, signal: u8) -> Result<(), AllocError>
        requires { CanRun self.old.procs pid }
        ensures memory { self.new.mem ≡ self.old.mem }
        ensures holds { HoldsFiles self.old → HoldsFiles self.new }
        ensures dies { (a : About) → Dies a (at_process (world_of a self.old) pid (λ p s. trapped (world_of a self.old) p signal)) self.old self.new pid result }
    {
        self.log.reserve(1)?;
        let how = How::Signal(signal);
        keep(&mut self.log, Note::End { pid, how });
        self.recording.pass(self.procs.get(pid).space, 1);
        self.depart(pid, how);
        Ok(())
    }

    /// Ends a process by a signal: its own space goes, and a note is kept. Those go on that wait on a pipe of which an end closes.
    pub fn end_by_signal(&mut self, pid: u32, signal: u8) -> Result<(), AllocError>
        requires { CanRun self.old.procs pid }
        ensures dies { (a : About) → Dies a (died (world_of a self.old) pid signal) self.old self.new pid result }
        ensures holds { HoldsFiles self.old → HoldsFiles self.new }
        ensures memory { (headers : List (List ℕ)) → (a : About) → DiesIn headers a (died_in (physical_of headers a self.old) pid signal) self.old self.new pid result }
        ensures marks { self.old.files.changed ≡ [] → self.new.files.changed ≡ [] }
    {
        self.die(pid, signal)?;
        self.wake_changed();
        Ok(())
    }
}
