//! What a call of mmap2 asks for.

ghost use Rattle.std.specs.Prelude.{◌≡◌, IfOk, slice_index};
ghost use Rattle.fd_tables.specs.Files.{view};
ghost use Rattle.mmap_rules.specs.Want.{wanted, AsksPages};
ghost use Rattle.mmap_rules.specs.Copies.{IsKnown};
ghost use Rattle.machine_world.specs.MapCalls.{side_of};

use call_log::Errno;
use fd_tables::{Files, Target};
use mem_files::{Node, Tree};
use mmap_rules::{FileSide, Want, check_mmap2};

/// What a descriptor leads to. None leads to a node that is gone.
fn file_side(tree: &Tree, files: &Files, table: u32, fd: u32) -> FileSide
    ensures { result ≡ side_of tree.now (view files.now.open_files table fd) }
{
    let Ok(view) = files.view(table, fd) else {
        return FileSide::Closed;
    };
    let Target::Node(id) = view.target else {
        return FileSide::NotFile;
    };
    if !tree.has(id) {
        return FileSide::Closed;
    }
    match tree.kind(id) {
        Node::Dir => FileSide::NotFile,
        Node::File if !view.way.read => FileSide::NoRead,
        Node::File => FileSide::File {
            id,
            change: tree.change(id),
        },
    }
}

/// What a call of mmap2 asks for.
pub fn want_of(tree: &Tree, files: &Files, table: u32, args: &[u32; 6]) -> Result<Want, Errno>
    ensures known { IfOk result (IsKnown tree.now) }
    ensures wanted { result ≡ wanted (slice_index args.now 0) (slice_index args.now 1) (slice_index args.now 2) (slice_index args.now 3) (slice_index args.now 5) (side_of tree.now (view files.now.open_files table (slice_index args.now 4))) }
    ensures pages { IfOk result AsksPages }
{
    let side = file_side(tree, files, table, args[4]);
    check_mmap2(args[0], args[1], args[2], args[3], args[5], side)
}
