//! Calls of a run that halts, behind a stray access that was noted. No run comes there: it has ended at that access.

ghost use Rattle.std.specs.Prelude.{◌≡◌, IfSome};
ghost use Rattle.vfork_exec.specs.Procs.{CanRun, Lives};

use bflt_format::Flat;
use fd_tables::Files;
use kept_parts::{KeptParts, Served};
use mem_files::Tree;
use page_runs::{Chooser, Kind, Run, first_fit};
use quantum_sched::{Quantum, pick};
use region_watch::Mode;
use rv32im_step::{Access, AccessKind};
use std::test::*;
use syscall_layer::{Parts, serve};

/// A flat file with a text of 32 bytes that begins with `hi`, a stack of 4096 bytes, and no records.
static HI: [u8; 96] = [
    0x62, 0x46, 0x4c, 0x54, 0x00, 0x00, 0x00, 0x04, 0x00, 0x00, 0x00, 0x40, 0x00, 0x00, 0x00, 0x60,
    0x00, 0x00, 0x00, 0x60, 0x00, 0x00, 0x00, 0x60, 0x00, 0x00, 0x10, 0x00, 0x00, 0x00, 0x00, 0x60,
    0x00, 0x00, 0x00, 0x00, 0x00, 0x00, 0x00, 0x01, 0x00, 0x00, 0x00, 0x00, 0x00, 0x00, 0x00, 0x00,
    0x00, 0x00, 0x00, 0x00, 0x00, 0x00, 0x00, 0x00, 0x00, 0x00, 0x00, 0x00, 0x00, 0x00, 0x00, 0x00,
    0x68, 0x69, 0x00, 0x00, 0x00, 0x00, 0x00, 0x00, 0x00, 0x00, 0x00, 0x00, 0x00, 0x00, 0x00, 0x00,
    0x00, 0x00, 0x00, 0x00, 0x00, 0x00, 0x00, 0x00, 0x00, 0x00, 0x00, 0x00, 0x00, 0x00, 0x00, 0x00,
];

/// The address of its header in memory, which is nobody's.
const HEADER: u32 = 0x8000_0000;

/// The address of the text.
const TEXT: u32 = 0x8000_0040;

/// A write of the header.
const STRAY: Access = Access {
    pc: TEXT,
    addr: HEADER,
    len: 4,
    kind: AccessKind::Call,
};

/// Lets a process stand at a write to the console.
fn set_write(parts: &mut KeptParts, pid: u32, addr: u32, len: u32)
    requires { Lives parts.old.procs pid }
    ensures notes { parts.new.notes ≡ parts.old.notes }
    ensures regions { parts.new.regions ≡ parts.old.regions }
    ensures files { parts.new.files ≡ parts.old.files }
{
    let task = parts.procs.get_mut(pid);
    task.regs.x[17] = 64;
    task.regs.x[10] = 1;
    task.regs.x[11] = addr;
    task.regs.x[12] = len;
}

/// The first process that may run.
fn ready(parts: &Parts) -> Option<u32>
    ensures { IfSome result (λ pid. CanRun parts.now.kept.procs pid) }
{
    pick(&parts.kept.procs, Quantum { pick: 0, count: 1 })
}

/// What comes of a write of process 1; None where it may not run, or memory is wanting.
fn write(parts: &mut Parts, addr: u32, len: u32) -> Option<Served> {
    if !parts.kept.procs.lives(1) {
        return None;
    }
    set_write(&mut parts.kept, 1, addr, len);
    let pid = ready(parts)?;
    let chooser = Chooser::new(Kind::First, |runs: &[Run], need: u32| {
        first_fit(runs, need)
    });
    serve(parts, pid, &chooser).ok()
}

/// Whether so much of the text was written to the console, with so many notes, and a0 is this; the stray access is marked.
fn has_written(parts: &Parts, len: usize, notes: usize, value: u32) -> bool {
    parts.noted
        && parts.kept.console.as_slice() == &b"hi"[..len.min(2)]
        && parts.kept.log.notes().len() == notes
        && parts.kept.procs.lives(1)
        && parts.kept.procs.get(1).regs.x[10] == value
}

/// A write that strays is answered and leaves all, and the next one is carried out.
fn opens_nothing(parts: &mut Parts) -> bool {
    write(parts, HEADER, 4) == Some(Served::Stray(STRAY))
        && has_written(parts, 0, 2, 1)
        && write(parts, TEXT, 2) == Some(Served::Replied)
        && has_written(parts, 2, 3, 2)
}

/// A memory of two pages in which process 1 has started, and a stray access of it was noted.
fn begun(rt: HostRuntime) -> Result<Option<KeptParts>, Fail> {
    let flat = Flat::read(rt.alloc(), &HI)?;
    let args = vec![in rt.alloc(); Vec::from_slice(rt.alloc(), b"/a")?]?;
    let chooser = Chooser::new(Kind::First, |runs: &[Run], need: u32| {
        first_fit(runs, need)
    });
    let tree = Tree::new(rt.alloc())?;
    let files = Files::new(rt.alloc(), Vec::new(rt.alloc()))?;
    let mut parts = KeptParts::new(rt.alloc(), 2, tree, files, 0)?;
    let is_begun = parts.start(0, &flat, &args, &chooser).is_ok()
        && parts.note_stray(1, STRAY).is_ok();
    Ok(is_begun.then_some(parts))
}

/// The same in a run that halts.
fn halting(rt: HostRuntime) -> Result<Parts, Fail> {
    match begun(rt)? {
        Some(kept) => Ok(Parts::new(kept, Vec::new(rt.alloc()), Mode::Halt)),
        None => Err(Fail::from("not started")),
    }
}

/// Whether a write that strays opens nothing there.
fn halting_opens_nothing(rt: HostRuntime) -> Result<bool, Fail> {
    let mut parts = halting(rt)?;
    Ok(opens_nothing(&mut parts))
}

/// A call reads its process's own bytes alone, whatever was noted.
#[test]
fn a_noted_stray_access_opens_nothing(rt: HostRuntime) -> Result<(), Fail> {
    assert!(rt; halting_opens_nothing(rt)?);
    Ok(())
}
