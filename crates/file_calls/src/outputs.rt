//! The calls on files that give bytes.

ghost use Rattle.std.specs.Prelude.{IfOk};
ghost use Rattle.machine_world.specs.Rows.{row};
ghost use Rattle.file_calls.specs.Calls.{IsOutput, DoesNotWait};
ghost use Rattle.file_calls.specs.Outcomes.{GivesRow, CanTake, HasEnds};

use crate::call::Call;
use crate::listing::getdents64;
use crate::outcome::Outcome;
use crate::piping::pipe2;
use crate::reading::{read, readv};
use crate::seeking::llseek;
use call_log::numbers;
use fd_tables::Files;
use mem_files::Tree;
use std::alloc::{AllocError, Global};

/// What a call on files gives that changes nothing before, and that doesn't wait: pipe2, getdents64, llseek, read or readv. A refusal
/// is a reply without bytes.
pub fn output(alloc: Global, tree: &Tree, files: &Files, call: &Call) -> Result<Outcome, AllocError>
    requires output { IsOutput call.now.number }
    requires replies { DoesNotWait call.now files.now.open_files }
    ensures gives { IfOk result (GivesRow row call.now tree.now files.now.open_files) }
    ensures fits { IfOk result (λ o. CanTake files.now.open_files o.then) }
    ensures ends { IfOk result (λ o. HasEnds files.now.open_files call.now.table o.then) }
{
    match call.number {
        numbers::PIPE2 => pipe2(alloc, files, call),
        numbers::GETDENTS64 => getdents64(alloc, tree, files, call),
        numbers::LLSEEK => llseek(alloc, tree, files, call),
        numbers::READ => read(alloc, tree, files, call),
        _ => readv(alloc, tree, files, call),
    }
}
