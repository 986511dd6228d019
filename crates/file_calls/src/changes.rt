//! The calls that change files or descriptors, and write nothing into memory.

ghost use Rattle.std.specs.Prelude.{OnErr};
ghost use Rattle.fd_tables.specs.Spare.{KeepsSpare};
ghost use Rattle.machine_world.specs.Asks.{Ask};
ghost use Rattle.machine_world.specs.Rows.{row};
ghost use Rattle.file_calls.specs.Answers.{Answers};
ghost use Rattle.file_calls.specs.Calls.{IsChange, MadeBy, DoesNotWait, IsRest, ChangesFiles, with_all};

use crate::call::Call;
use crate::descriptors::{close, dup, dup3};
use crate::opening::openat;
use crate::paths::{mkdirat, unlinkat};
use crate::writing::{write, writev};
use call_log::numbers;
use fd_tables::Files;
use mem_files::{FileFault, Tree};
use std::alloc::AllocError;

/// Carries out a call on files that gives no bytes, and that doesn't wait: dup, dup3, mkdirat, unlinkat, openat, close, write or writev. A refusal is
/// a reply, and changes nothing. Out of memory the tables may have more memory ready than before, and have no less.
pub fn change(
    tree: &mut Tree,
    files: &mut Files,
    console: &mut Vec<u8>,
    call: &Call,
) -> Result<u32, AllocError>
    requires change { IsChange call.now.number }
    requires replies { DoesNotWait call.now files.old.open_files }
    ensures changes { (a : Ask) → MadeBy call.now a → IsRest a.rest tree.old files.old console.old.items → ChangesFiles a (row a) tree.old files.old console.old.items tree.new files.new console.new.items result }
    ensures ready { OnErr result (KeepsSpare files.old files.new) }
{
    match carry_out(tree, files, console, call) {
        Ok(value) => Ok(value),
        Err(FileFault::Errno(errno)) => Ok(errno.refusal()),
        Err(FileFault::Memory) => Err(AllocError),
    }
}

fn carry_out(
    tree: &mut Tree,
    files: &mut Files,
    console: &mut Vec<u8>,
    call: &Call,
) -> Result<u32, FileFault>
    requires change { IsChange call.now.number }
    requires replies { DoesNotWait call.now files.old.open_files }
    ensures answers { (a : Ask) → MadeBy call.now a → IsRest a.rest tree.old files.old console.old.items → Answers a (row a) (with_all a.rest tree.new files.new.open_files console.new.items) result }
    ensures ready { OnErr result (KeepsSpare files.old files.new) }
{
    match call.number {
        numbers::DUP => dup(files, call),
        numbers::DUP3 => dup3(tree, files, call),
        numbers::MKDIRAT => mkdirat(tree, call),
        numbers::UNLINKAT => unlinkat(tree, call),
        numbers::OPENAT => openat(tree, files, call),
        numbers::CLOSE => close(tree, files, call),
        numbers::WRITE => write(tree, files, console, call, &call.sent),
        _ => writev(tree, files, console, call),
    }
}
