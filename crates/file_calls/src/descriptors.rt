//! The calls that change descriptors alone.

ghost use Rattle.std.specs.Prelude.{◌≡◌};
ghost use Rattle.fd_tables.specs.Spare.{KeepsSpare};
ghost use Rattle.fd_tables.specs.Changes.{storage};
ghost use Rattle.machine_world.specs.Asks.{Ask, with_files, storage_of, with_storage};
ghost use Rattle.machine_world.specs.Descriptors.{dup_row, dup3_row, close_row};
ghost use Rattle.file_calls.specs.Answers.{Answers};
ghost use Rattle.file_calls.specs.Calls.{MadeBy};

use crate::call::Call;
use crate::flags::{O_CLOEXEC, is_none_or};
use call_log::Errno;
use fd_tables::Files;
use mem_files::{FileFault, Tree};

/// dup(fd)
pub(crate) fn dup(files: &mut Files, call: &Call) -> Result<u32, FileFault>
    ensures answers { (a : Ask) → MadeBy call.now a → a.rest.files ≡ files.old.open_files → Answers a (dup_row a) (with_files a.rest files.new.open_files) result }
    ensures spare { KeepsSpare files.old files.new }
{
    Ok(files.dup(call.table, call.args[0])?)
}

/// dup3(old, new, flags)
pub(crate) fn dup3(tree: &mut Tree, files: &mut Files, call: &Call) -> Result<u32, FileFault>
    ensures answers { (a : Ask) → MadeBy call.now a → storage_of a.rest ≡ storage tree.old files.old.open_files → Answers a (dup3_row a) (with_storage a.rest (storage tree.new files.new.open_files)) result }
    ensures spare { KeepsSpare files.old files.new }
{
    let [old, new, flags, ..] = call.args;
    if !is_none_or(flags, O_CLOEXEC) {
        return Err(FileFault::Errno(Errno::Einval));
    }
    files.dup3(tree, call.table, old, new, flags == O_CLOEXEC)?;
    Ok(new)
}

/// close(fd)
pub(crate) fn close(tree: &mut Tree, files: &mut Files, call: &Call) -> Result<u32, FileFault>
    ensures answers { (a : Ask) → MadeBy call.now a → storage_of a.rest ≡ storage tree.old files.old.open_files → Answers a (close_row a) (with_storage a.rest (storage tree.new files.new.open_files)) result }
    ensures spare { KeepsSpare files.old files.new }
{
    files.close(tree, call.table, call.args[0])?;
    Ok(0)
}
