//! A system call, as a process makes it.

ghost use Rattle.std.specs.Prelude.{◌≡◌, ◌<◌, ◌^◌, IfOk, length, slice_index};
ghost use Rattle.mmap_rules.specs.Held.{Held};
ghost use Rattle.vfork_exec.specs.declared.entry.Entry.{Entry};
ghost use Rattle.vfork_exec.specs.Procs.{Lives};
ghost use Rattle.machine_world.specs.Event.{args_of};
ghost use Rattle.kept_parts.specs.declared.task.Task.{Task};
ghost use Rattle.region_watch.specs.Private.{only, physical};
ghost use Rattle.kept_parts.specs.Calls.{LivesIn, Made};
ghost use Rattle.kept_parts.specs.Reach.{readable};

use call_bytes::{Unread, read_sent};
use file_calls::Call;
use kept_parts::KeptParts;
use region_watch::Mode;
use rv32im_step::Regs;

/// The arguments of the call at which these registers stand.
#[tactic(auto, unfolding(rv32im_step::specs::Registers::register))]
fn args_of(regs: &Regs) -> [u32; 6]
    ensures { result ≡ args_of regs.now }
{
    let x = &regs.x;
    [x[10], x[11], x[12], x[13], x[14], x[15]]
}

/// The call at which a process stands, with the bytes that it reads, where its accesses are watched in this mode.
pub fn call_of(parts: &KeptParts, pid: u32, mode: Mode) -> Result<Call, Unread>
    requires lives { Lives parts.now.procs pid }
    ensures made { (e : Entry Task) → (h : Held) → LivesIn parts.now pid e h → Made (only (readable mode (length parts.now.regions) h) (physical parts.now.mem)) e result }
    ensures pid { IfOk result (λ call. call.pid ≡ pid) }
    ensures args { IfOk result (λ call. slice_index call.args 2 < 2 ^ 32) }
{
    let task = parts.procs.get(pid);
    let number = task.regs.x[17];
    let args = args_of(&task.regs);
    let alloc = *parts.console.allocator();
    let owners = parts.table_of(task.space, mode);
    match read_sent(alloc, &parts.mem, owners, number, &args) {
        Ok(sent) => Ok(Call {
            pid,
            parent: parts.procs.parent(pid),
            table: task.table,
            number,
            args,
            sent,
        }),
        Err(unread) => Err(unread),
    }
}
