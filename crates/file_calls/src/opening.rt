//! openat.

ghost use Rattle.std.specs.Prelude.{◌≡◌, ◌≤◌, IsSome, Some, OnErr};
ghost use Rattle.fd_tables.specs.Spare.{KeepsSpare};
ghost use Rattle.fd_tables.specs.Changes.{storage, opened};
ghost use Rattle.fd_tables.specs.Files.{lowest_free};
ghost use Rattle.machine_world.specs.Asks.{Ask, storage_of, with_storage};
ghost use Rattle.machine_world.specs.PathCalls.{openat_row, opens_old, opens_new, open_fault, emptied, way_of};
ghost use Rattle.file_calls.specs.Answers.{Answers, fault_or_ok, HasFree, sent_path};
ghost use Rattle.file_calls.specs.Calls.{MadeBy};

use crate::call::Call;
use crate::flags::OpenFlags;
use crate::paths::path_of;
use call_log::Errno;
use fd_tables::Files;
use mem_files::{FileFault, Node, Tree};

/// openat(folder, path, flags)
pub(crate) fn openat(tree: &mut Tree, files: &mut Files, call: &Call) -> Result<u32, FileFault>
    ensures answers { (a : Ask) → MadeBy call.now a → storage_of a.rest ≡ storage tree.old files.old.open_files → Answers a (openat_row a) (with_storage a.rest (storage tree.new files.new.open_files)) result }
    ensures ready { OnErr result (KeepsSpare files.old files.new) }
{
    let flags = OpenFlags { bits: call.args[2] };
    if !flags.are_valid() {
        return Err(FileFault::Errno(Errno::Einval));
    }
    let path = path_of(call)?;
    match tree.lookup(path)? {
        Some(node) => open_old(tree, files, call, node),
        None => open_new(tree, files, call, path),
    }
}

/// Opens a file or a folder that is there.
fn open_old(tree: &mut Tree, files: &mut Files, call: &Call, node: u32) -> Result<u32, FileFault>
    ensures answers { (a : Ask) → MadeBy call.now a → storage_of a.rest ≡ storage tree.old files.old.open_files → Answers a (opens_old a node) (with_storage a.rest (storage tree.new files.new.open_files)) result }
    ensures ready { OnErr result (KeepsSpare files.old files.new) }
{
    let flags = OpenFlags { bits: call.args[2] };
    may_open(tree, node, flags)?;
    make_room(files, call.table)?;
    empty(tree, node, flags);
    Ok(open(tree, files, call.table, node, flags))
}

/// Empties a file that is opened for writing, if that is asked.
fn empty(tree: &mut Tree, node: u32, flags: OpenFlags)
    ensures { tree.new ≡ emptied tree.old node flags.bits }
{
    if flags.truncates() && flags.writes() {
        tree.truncate(node);
    }
}

/// Makes a file, and opens it.
fn open_new(tree: &mut Tree, files: &mut Files, call: &Call, path: &[u8]) -> Result<u32, FileFault>
    ensures answers { (a : Ask) → MadeBy call.now a → storage_of a.rest ≡ storage tree.old files.old.open_files → Answers a (opens_new a path.now) (with_storage a.rest (storage tree.new files.new.open_files)) result }
    ensures ready { OnErr result (KeepsSpare files.old files.new) }
{
    let flags = OpenFlags { bits: call.args[2] };
    if !flags.creates() {
        return Err(FileFault::Errno(Errno::Enoent));
    }
    make_room(files, call.table)?;
    let empty = Vec::new(*call.sent.allocator());
    let node = tree.create(path, empty, None)?;
    Ok(open(tree, files, call.table, node, flags))
}

/// Why what is there isn't opened.
fn may_open(tree: &Tree, node: u32, flags: OpenFlags) -> Result<(), Errno>
    ensures { result ≡ fault_or_ok (open_fault tree.now node flags.bits) }
{
    let is_folder = tree.kind(node) == Node::Dir;
    if flags.creates() && flags.is_exclusive() {
        return Err(Errno::Eexist);
    }
    if is_folder && (flags.writes() || flags.creates()) {
        return Err(Errno::Eisdir);
    }
    if !is_folder && flags.asks_folder() {
        return Err(Errno::Enotdir);
    }
    if tree.program(node).is_some() && flags.writes() {
        return Err(Errno::Eacces);
    }
    Ok(())
}

/// Takes the memory to open a descriptor more, if one is free.
fn make_room(files: &mut Files, table: u32) -> Result<(), FileFault>
    ensures same { files.new.open_files ≡ files.old.open_files }
    ensures free { HasFree (lowest_free files.old.open_files table) files.new.spare result }
    ensures keeps { KeepsSpare files.old files.new }
{
    if files.lowest_free(table).is_none() {
        return Err(FileFault::Errno(Errno::Emfile));
    }
    files.ready()?;
    Ok(())
}

/// Opens a node as the lowest descriptor that is free.
fn open(tree: &mut Tree, files: &mut Files, table: u32, node: u32, flags: OpenFlags) -> u32
    requires free { IsSome (lowest_free files.old.open_files table) }
    requires spare { 1 ≤ files.old.spare }
    ensures fd { lowest_free files.old.open_files table ≡ Some result }
    ensures opened { storage tree.new files.new.open_files ≡ opened (storage tree.old files.old.open_files) table result node (way_of flags.bits) }
{
    match files.open(tree, table, node, flags.way()) {
        Ok(fd) => fd,
        Err(_) => unreachable!(),
    }
}
