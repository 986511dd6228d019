//! A process more, that borrows its parent's space (Linux, vfork(2), in this project's profile).

ghost use Rattle.std.specs.Prelude.{◌≡◌, ◌<◌, ◌^◌, true, length};
ghost use Rattle.mmap_rules.specs.Held.{Held};
ghost use Rattle.vfork_exec.specs.declared.entry.Entry.{Entry as Listed};
ghost use Rattle.vfork_exec.specs.Procs.{CanRun, count, most_entries};
ghost use Rattle.flat_loader.specs.Alone.{child_regs};
ghost use Rattle.kept_parts.specs.declared.task.Task.{Task};
ghost use Rattle.kept_parts.specs.Copies.{HoldsFiles};
ghost use Rattle.kept_parts.specs.Recorded.{room_beside};
ghost use Rattle.kept_parts.specs.Calls.{LivesIn, Forks};

use crate::keep::or_unreserve;
use crate::kept::KeptParts;
use crate::reply::{finish, set_reply};
use crate::task::Task;
use file_calls::Call;
use rv32im_step::Regs;
use std::alloc::AllocError;

/// The parent's registers behind its call, but for a0, which is 0, and sp, if one is given.
#[tactic(auto, unfolding(rv32im_step::specs::Registers::with_register))]
fn child_regs(parent: &Regs, sp: u32) -> Regs
    ensures { result ≡ child_regs parent.now sp }
{
    let mut regs = *parent;
    set_reply(&mut regs, 0);
    if sp != 0 {
        regs.x[2] = sp;
    }
    regs
}

impl KeptParts {
    /// A process gets a child, which runs in its space, and stands still for it. The call is noted; there is room for its note.
    pub fn fork(&mut self, call: Call) -> Result<(), AllocError>
        requires ready { CanRun self.old.procs call.pid }
        requires few { count self.old.procs < most_entries }
        requires room { room_beside self.old (length call.sent.items) ≡ true }
        ensures forks { (e : Listed Task) → (h : Held) → LivesIn self.old call.pid e h → Forks self.old e call self.new result }
        ensures memory { self.new.mem ≡ self.old.mem }
        ensures holds { HoldsFiles self.old → HoldsFiles self.new }
    {
        self.log.reserve(1)?;
        let got = Vec::new(*self.console.allocator());
        let Task { regs, space, table } = *self.procs.get(call.pid);
        let copied = self.files.copy_table(table);
        let child = Task {
            regs: child_regs(&regs, call.args[1]),
            space,
            table: or_unreserve(&mut self.log, copied)?,
        };
        self.recording.pass(space, 1);
        match self.procs.vfork(call.pid, child) {
            Ok(pid) => finish(&mut self.procs, &mut self.log, call, pid, got),
            Err(_) => unreachable!(),
        }
        Ok(())
    }
}
