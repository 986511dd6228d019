//! The bytes of a process.

ghost use Rattle.std.specs.Prelude.{◌≡◌, List, ℕ, IfOk, option_map};
ghost use Rattle.region_watch.specs.declared.mode.Mode.TheVariants.{Halt, GoOn};
ghost use Rattle.kept_parts.specs.InMemory.{physical_of};
ghost use Rattle.kept_parts.specs.Stands.{About, world_of};
ghost use Rattle.flat_machine.specs.State.{world, one_memory};
ghost use Rattle.flat_machine.specs.OwnBytes.{own_bytes, memory_bytes};

use crate::machine::Machine;
use call_bytes::{Unread, read_range};
use kept_parts::KeptParts;
use region_watch::Mode;
use std::alloc::AllocError;

/// A copy of the bytes of a process that lives, watched in this mode.
fn copied(
    parts: &KeptParts,
    pid: u32,
    addr: u32,
    len: u32,
    mode: Mode,
) -> Result<Option<Vec<u8>>, AllocError>
    ensures own { mode ≡ Halt → (a : About) → IfOk result (λ found. option_map (λ bytes. bytes.items) found ≡ own_bytes (world_of a parts.now) pid addr len) }
    ensures memory { mode ≡ GoOn → (headers : List (List ℕ)) → (a : About) → IfOk result (λ found. option_map (λ bytes. bytes.items) found ≡ memory_bytes (physical_of headers a parts.now) pid addr len) }
{
    if !parts.procs.lives(pid) {
        return Ok(None);
    }
    let task = parts.procs.get(pid);
    let owners = parts.table_of(task.space, mode);
    let mut bytes = Vec::new(*parts.console.allocator());
    match read_range(&parts.mem, owners, addr, len, &mut bytes) {
        Ok(()) => Ok(Some(bytes)),
        Err(Unread::Stray { .. }) => Ok(None),
        Err(Unread::Memory) => Err(AllocError),
    }
}

impl Machine {
    /// A copy of `len` bytes of a process from `addr` on; None where it doesn't live, or one of them isn't its own. Of a run that goes
    /// on, those of memory; None where it doesn't live, or one of them lies outside memory.
    pub fn bytes(&self, pid: u32, addr: u32, len: u32) -> Result<Option<Vec<u8>>, AllocError>
        ensures own { self.now.mode ≡ Halt → IfOk result (λ found. option_map (λ bytes. bytes.items) found ≡ own_bytes (world self.now) pid addr len) }
        ensures memory { self.now.mode ≡ GoOn → IfOk result (λ found. option_map (λ bytes. bytes.items) found ≡ memory_bytes (one_memory self.now) pid addr len) }
    {
        copied(&self.parts.kept, pid, addr, len, self.parts.mode)
    }
}
