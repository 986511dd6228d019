//! How many descriptors share an open file.

ghost use Rattle.std.specs.Prelude.{◌≡◌, Some};
ghost use Rattle.mem_files.specs.Inodes.{raised};
ghost use Rattle.fd_tables.specs.Changes.{new_file, pipe_end, with_item};

use crate::open_file::{Object, OpenFile};
use crate::places::{at_number, set_place};
use crate::view::Way;

/// A file that one descriptor opens.
pub(crate) fn new_file(node: u32, way: Way) -> OpenFile
    ensures { result ≡ new_file node way }
{
    OpenFile {
        object: Object::File(node),
        read: way.read,
        write: way.write,
        append: way.append,
        at: 0,
        uses: 1,
    }
}

/// An end of a pipe that one descriptor opens.
pub(crate) fn pipe_end(id: u32, write: bool) -> OpenFile
    ensures { result ≡ pipe_end id write }
{
    OpenFile {
        object: Object::PipeEnd(id),
        read: !write,
        write,
        append: false,
        at: 0,
        uses: 1,
    }
}

/// One descriptor more shares an open file.
pub(crate) fn share(files: &mut [Option<OpenFile>], number: u32)
    ensures { files.new ≡ with_item (λ f. Some (record f { uses = raised f.uses })) files.old number }
{
    if let Some(file) = at_number(files, number) {
        let uses = file.uses.saturating_add(1);
        set_place(files, number, Some(OpenFile { uses, ..file }));
    }
}

/// Moves the position of an open file.
pub(crate) fn move_to(files: &mut [Option<OpenFile>], number: u32, at: u64)
    ensures { files.new ≡ with_item (λ f. Some (record f { at = at })) files.old number }
{
    if let Some(file) = at_number(files, number) {
        set_place(files, number, Some(OpenFile { at, ..file }));
    }
}
