//! New files and folders.

ghost use Rattle.std.specs.Prelude.{◌≡◌, None, length, vec_capacity, OnOk, IfOk, OnErr};
ghost use Rattle.mem_files.specs.declared.node.Node.TheVariants.{Dir};
ghost use Rattle.mem_files.specs.Inodes.{kind_of, entries_of, Fits};
ghost use Rattle.mem_files.specs.Paths.{named};
ghost use Rattle.mem_files.specs.Calls.{Makes};
ghost use Rattle.mem_files.specs.Changes.{with_folder, with_file, with_new, with_entry, made_in};
ghost use Rattle.mem_files.specs.Stored.{content_value};
ghost use Rattle.mem_files.specs.Walks.{place_value};

use super::{MOST_NODES, MOST_OF_ALL, MOST_OF_ONE, Tree};
use crate::content::Content;
use crate::entries::Entries;
use crate::fault::FileFault;
use crate::inode::Inode;
use crate::place::Place;
use call_log::Errno;
use std::alloc::AllocError;

impl Tree {
    /// Makes a file with these bytes, and gives its number. `program` marks it as that program.
    pub fn create(
        &mut self,
        path: &[u8],
        bytes: Vec<u8>,
        program: Option<u32>,
    ) -> Result<u32, FileFault>
        ensures { Makes (with_file self.old path.now bytes.items program) self.old self.new result }
    {
        let place = self.vacant_place(path)?;
        self.make(place, Content::File(bytes), program)
    }

    /// Makes a folder, and gives its number.
    pub fn mkdir(&mut self, path: &[u8]) -> Result<u32, FileFault>
        ensures { Makes (with_folder self.old path.now) self.old self.new result }
    {
        let place = self.vacant_place(path)?;
        let content = Content::Folder {
            parent: place.folder,
            entries: Entries::new(*self.inodes.allocator()),
        };
        self.make(place, content, None)
    }

    /// Makes a node where a path leads to nothing yet, and gives its number.
    fn make(
        &mut self,
        place: Place<'_>,
        content: Content,
        program: Option<u32>,
    ) -> Result<u32, FileFault>
        requires folder { kind_of self.old place.folder ≡ Dir }
        requires absent { named place.name.now (entries_of self.old place.folder) ≡ None }
        ensures { Makes (made_in self.old (place_value place.entry) (content_value content) program) self.old self.new result }
    {
        let len = content.bytes().len() as u64;
        if len > MOST_OF_ONE {
            return Err(FileFault::Errno(Errno::Efbig));
        }
        if self.count >= MOST_NODES || len > MOST_OF_ALL - self.bytes {
            return Err(FileFault::Errno(Errno::Enospc));
        }
        Ok(self.add(place, Inode::new(content, program))?)
    }

    /// Adds a node, and its name behind the entries of its folder.
    fn add(&mut self, place: Place<'_>, inode: Inode) -> Result<u32, AllocError>
        requires folder { kind_of self.old place.folder ≡ Dir }
        requires absent { named place.name.now (entries_of self.old place.folder) ≡ None }
        requires fits { Fits (with_new self.old place.folder place.name.now inode) }
        ensures added { OnOk result (self.new ≡ with_new self.old place.entry.folder place.entry.name.now inode) }
        ensures id { IfOk result (λ id. id ≡ length self.old) }
        ensures err { OnErr result (self.new ≡ self.old) }
    {
        if self.inodes.len() >= u32::MAX as usize {
            return Err(AllocError);
        }
        let id = self.inodes.len() as u32;
        let name = place.name.to_vec(*self.inodes.allocator())?;
        self.inodes.reserve(1)?;
        add_entry(&mut self.inodes, place.folder, name, id)?;
        self.count += 1;
        self.bytes += inode.bytes().len() as u64;
        self.inodes.push(Some(inode)).unwrap();
        Ok(id)
    }
}

/// Adds an entry behind those of a folder.
fn add_entry(
    inodes: &mut Vec<Option<Inode>>,
    at: u32,
    name: Vec<u8>,
    id: u32,
) -> Result<(), AllocError>
    requires folder { kind_of inodes.old.items at ≡ Dir }
    requires absent { named name.items (entries_of inodes.old.items at) ≡ None }
    ensures added { OnOk result (inodes.new.items ≡ with_entry inodes.old.items at name.items id) }
    ensures err { OnErr result (inodes.new.items ≡ inodes.old.items) }
    ensures capacity { vec_capacity inodes.new ≡ vec_capacity inodes.old }
{
    match &mut inodes[at as usize] {
        Some(folder) => folder.add(name, id),
        None => unreachable!(),
    }
}
