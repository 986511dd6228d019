//! The calls that change names.

ghost use Rattle.std.specs.Prelude.{◌≡◌, ◌==◌, position, slice_index};
ghost use Rattle.machine_world.specs.Asks.{Ask, with_tree};
ghost use Rattle.machine_world.specs.PathCalls.{path_fault, mkdirat_row, unlinkat_row};
ghost use Rattle.file_calls.specs.Answers.{Answers, sent_path, IsPathOr};
ghost use Rattle.file_calls.specs.Calls.{MadeBy};

use crate::call::Call;
use crate::flags::is_none_or;
use call_log::Errno;
use mem_files::{FileFault, Tree, is_too_long};

/// AT_FDCWD: the folder that the caller works in, which is the root.
const WORKING_FOLDER: u32 = 0xffff_ff9c;

/// The one flag of unlinkat, AT_REMOVEDIR.
const REMOVE_FOLDER: u32 = 0x200;

/// mkdirat(folder, path)
pub(crate) fn mkdirat(tree: &mut Tree, call: &Call) -> Result<u32, FileFault>
    ensures { (a : Ask) → MadeBy call.now a → a.rest.tree ≡ tree.old → Answers a (mkdirat_row a) (with_tree a.rest tree.new) result }
{
    let path = path_of(call)?;
    tree.mkdir(path)?;
    Ok(0)
}

/// unlinkat(folder, path, flags)
pub(crate) fn unlinkat(tree: &mut Tree, call: &Call) -> Result<u32, FileFault>
    ensures { (a : Ask) → MadeBy call.now a → a.rest.tree ≡ tree.old → Answers a (unlinkat_row a) (with_tree a.rest tree.new) result }
{
    let flags = call.args[2];
    if !is_none_or(flags, REMOVE_FOLDER) {
        return Err(FileFault::Errno(Errno::Einval));
    }
    let path = path_of(call)?;
    tree.unlink(path, flags == REMOVE_FOLDER)?;
    Ok(0)
}

/// The path that a call names, behind the folder that it begins at. No descriptor is a folder to begin at.
pub(crate) fn path_of(call: &Call) -> Result<&[u8], Errno>
    ensures { IsPathOr (path_fault (slice_index call.now.args 0) (sent_path call.now.sent.items)) (sent_path call.now.sent.items) result }
{
    let path = sent_path(&call.sent);
    if is_too_long(path) {
        return Err(Errno::Enametoolong);
    }
    if path.first() != Some(&b'/') && call.args[0] != WORKING_FOLDER {
        return Err(Errno::Ebadf);
    }
    Ok(path)
}

/// What was sent before the first zero.
fn sent_path(sent: &[u8]) -> &[u8]
    ensures { result.now ≡ sent_path sent.now }
{
    match first_zero(sent) {
        Some(end) => sent.split_at(end).0,
        None => sent,
    }
}

fn first_zero(sent: &[u8]) -> Option<usize>
    ensures { result ≡ position (λ byte. byte == 0) sent.now }
{
    sent.iter().position(|byte| *byte == 0)
}
