//! A process that lives, as a core file tells of it.

ghost use Rattle.std.specs.Prelude.{◌≡◌, ◌≤◌, IfOk, IfSome, option_map};
ghost use Rattle.call_log.specs.Notes.{most_calls};
ghost use Rattle.machine_world.specs.Ages.{kept_calls};
ghost use Rattle.core_file.specs.Code.{core_value};
ghost use Rattle.core_file.specs.Given.{FitsFile};
ghost use Rattle.core_world.specs.Cores.{core_in, load_in};
ghost use Rattle.kept_parts.specs.Stands.{About, world_of};
ghost use Rattle.core_parts.specs.Code.{load_of};

use crate::bytes::own_segments;
use core_file::Core;
use kept_parts::KeptParts;
use region_watch::Mode;
use std::alloc::{AllocError, Global};

/// What a core file says of a process that lives, with the signal by which it would end next, or 0; None where it doesn't live. Its
/// load note is told where the log is within its limits, as that of a run is.
pub fn core_of_process(
    alloc: Global,
    parts: &KeptParts,
    pid: u32,
    signal: u8,
) -> Result<Option<Core>, AllocError>
    ensures core { (a : About) → IfOk result (λ found. option_map core_value found ≡ core_in (world_of a parts.now) pid signal) }
    ensures load { (a : About) → kept_calls parts.now.notes ≤ most_calls → IfOk result (λ found. option_map load_of found ≡ load_in (world_of a parts.now) pid) }
    ensures fits { IfOk result (λ found. IfSome found (λ core. FitsFile (core_value core))) }
{
    if !parts.procs.lives(pid) {
        return Ok(None);
    }
    let task = parts.procs.get(pid);
    let owners = parts.table_of(task.space, Mode::Halt);
    Ok(Some(Core {
        signal,
        pid,
        parent: parts.procs.parent(pid),
        load: task.space.wrapping_add(1),
        regs: task.regs,
        segments: own_segments(alloc, &parts.mem, owners)?,
    }))
}
