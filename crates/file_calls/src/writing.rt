//! The calls that write.

ghost use Rattle.std.specs.Prelude.{◌≡◌, ◌+◌, ◌*◌, drop, ◌^◌, ◌<◌, ◌≤◌, ◌==◌, ◌++◌, None, slice_index, if◌then◌else◌, length, is_ok, IfOk, IfErr};
ghost use Rattle.mem_files.specs.declared.fault.FileFault.TheVariants.{Memory};
ghost use Rattle.mem_files.specs.Inodes.{size_of};
ghost use Rattle.machine_world.specs.Asks.{Ask, with_files, storage_of, with_storage};
ghost use Rattle.machine_world.specs.Transfers.{write_row, writev_row, pipe_write, pipe_room, write_waits, node_write, write_position};
ghost use Rattle.fd_tables.specs.Spare.{KeepsSpare};
ghost use Rattle.fd_tables.specs.Pipes.{most_held};
ghost use Rattle.fd_tables.specs.Changes.{storage, moved};
ghost use Rattle.file_calls.specs.Answers.{Answers};
ghost use Rattle.file_calls.specs.Calls.{MadeBy, IsRest, WaitsOn, with_all};

use crate::call::Call;
use crate::piece::may_move;
use call_log::Errno;
use fd_tables::{Files, MOST_HELD, PipeView, Target, View};
use mem_files::{FileFault, Tree};

/// A write of so many bytes to a pipe is whole, or waits.
const MOST_WHOLE: usize = 4096;

/// writev(fd, v, c): the data stands behind the pieces, of eight bytes each.
pub(crate) fn writev(
    tree: &mut Tree,
    files: &mut Files,
    console: &mut Vec<u8>,
    call: &Call,
) -> Result<u32, FileFault>
    ensures answers { (a : Ask) → MadeBy call.now a → IsRest a.rest tree.old files.old console.old.items → WaitsOn (writev_row a) None → Answers a (writev_row a) (with_all a.rest tree.new files.new.open_files console.new.items) result }
    ensures spare { KeepsSpare files.old files.new }
{
    let count = call.args[2];
    if !may_move(count) {
        return Err(FileFault::Errno(Errno::Einval));
    }
    write(tree, files, console, call, behind_pieces(&call.sent, count))
}

/// What stands behind so many pieces.
pub(crate) fn behind_pieces(sent: &[u8], count: u32) -> &[u8]
    ensures { result.now ≡ drop (8 * count) sent.now }
{
    let start = sent.len().min(8 * count as usize);
    sent.split_at(start).1
}

/// write(fd, p, n), with its data.
pub(crate) fn write(
    tree: &mut Tree,
    files: &mut Files,
    console: &mut Vec<u8>,
    call: &Call,
    bytes: &[u8],
) -> Result<u32, FileFault>
    ensures answers { (a : Ask) → MadeBy call.now a → IsRest a.rest tree.old files.old console.old.items → WaitsOn (write_row a bytes.now) None → Answers a (write_row a bytes.now) (with_all a.rest tree.new files.new.open_files console.new.items) result }
    ensures spare { KeepsSpare files.old files.new }
{
    let view = files.view(call.table, call.args[0])?;
    if !view.way.write {
        return Err(FileFault::Errno(Errno::Ebadf));
    }
    match view.target {
        Target::Console => write_console(console, bytes),
        Target::Node(node) => write_node(tree, files, call, view, node, bytes),
        Target::Pipe { id, .. } => write_pipe(files, id, bytes),
    }
}

/// How many more bytes a pipe takes.
fn room_of(pipe: PipeView) -> usize
    requires { pipe.held ≤ most_held }
    ensures { result ≡ pipe_room pipe }
{
    (MOST_HELD - pipe.held) as usize
}

/// Whether a write of so many bytes waits: where it must be whole and has no room, and where there is no room at all.
pub(crate) fn must_wait(pipe: PipeView, count: usize) -> bool
    requires { pipe.held ≤ most_held }
    ensures { result ≡ write_waits count pipe }
{
    let room = room_of(pipe);
    (count <= MOST_WHOLE && room < count) || room == 0
}

/// Appends to a pipe as many bytes as it has room for. EPIPE where its reading end is closed, and there are bytes.
fn write_pipe(files: &mut Files, id: u32, bytes: &[u8]) -> Result<u32, FileFault>
    ensures answers { (a : Ask) → a.rest.files ≡ files.old.open_files → WaitsOn (pipe_write a id bytes.now) None → Answers a (pipe_write a id bytes.now) (with_files a.rest files.new.open_files) result }
    ensures spare { KeepsSpare files.old files.new }
{
    if bytes.is_empty() {
        return Ok(0);
    }
    let pipe = files.pipe_view(id);
    if !pipe.read_open {
        return Err(FileFault::Errno(Errno::Epipe));
    }
    let count = bytes.len().min(room_of(pipe));
    files.pipe_put(id, &bytes[..count]);
    Ok(count as u32)
}

/// The console takes all, and gives the number of bytes.
fn write_console(console: &mut Vec<u8>, bytes: &[u8]) -> Result<u32, FileFault>
    ensures count { IfOk result (λ n. n ≡ length bytes.now) }
    ensures console { console.new.items ≡ (if is_ok result then console.old.items ++ bytes.now else console.old.items) }
    ensures memory { IfErr result (λ fault. fault ≡ Memory) }
{
    let Ok(count) = u32::try_from(bytes.len()) else {
        return Err(FileFault::Memory);
    };
    console.extend_from_slice(bytes)?;
    Ok(count)
}

/// Writes to a node, and moves the position to the end of what was written.
fn write_node(
    tree: &mut Tree,
    files: &mut Files,
    call: &Call,
    view: View,
    node: u32,
    bytes: &[u8],
) -> Result<u32, FileFault>
    ensures answers { (a : Ask) → MadeBy call.now a → storage_of a.rest ≡ storage tree.old files.old.open_files → Answers a (node_write a node (write_position a view node) bytes.now) (with_storage a.rest (storage tree.new files.new.open_files)) result }
    ensures spare { KeepsSpare files.old files.new }
{
    let at = position(tree, view, node);
    tree.write_at(node, at, bytes)?;
    advance(files, call, at, bytes.len());
    Ok(bytes.len() as u32)
}

/// Where a write begins: with O_APPEND at the end, whatever the position.
fn position(tree: &Tree, view: View, node: u32) -> u64
    ensures { result ≡ (if view.way.append then size_of tree.now node else view.at) }
{
    if view.way.append {
        u64::from(tree.size(node))
    } else {
        view.at
    }
}

/// Moves the position behind what was written, if anything was.
fn advance(files: &mut Files, call: &Call, at: u64, len: usize)
    requires { at + len < 2 ^ 64 }
    ensures moved { files.new.open_files ≡ (if len == 0 then files.old.open_files else moved files.old.open_files call.now.table (slice_index call.now.args 0) (at + len)) }
    ensures spare { KeepsSpare files.old files.new }
{
    if len > 0 {
        files.move_to(call.table, call.args[0], at + len as u64);
    }
}
