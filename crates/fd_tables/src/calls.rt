//! Files open, and descriptors are duplicated and closed.

ghost use Rattle.std.specs.Prelude.{◌≡◌, ◌^◌, ◌<◌, ◌≤◌, IfOk, OnErr};
ghost use Rattle.fd_tables.specs.Spare.{KeepsSpare, UsesOneFile};
ghost use Rattle.fd_tables.specs.Files.{free_number, lowest_free, view};
ghost use Rattle.fd_tables.specs.Changes.{storage, with_open_file, closed, dropped, duplicated, replaced};
ghost use Rattle.fd_tables.specs.Calls.{Opens, IsFull, IsNotMemory, dup_number, Duplicates, dup3_fault, close_fault, Does};

use crate::fault::FdFault;
use crate::files::Files;
use crate::open_file::{Descriptor, Handle, Object, OpenFile};
use crate::places::{at_number, put_next, ready_places, set_place};
use crate::shares::new_file;
use crate::table::MOST_DESCRIPTORS;
use crate::view::Way;
use call_log::Errno;
use mem_files::Tree;
use std::alloc::AllocError;

impl Files {
    /// Takes the memory that the next `open` and the next table need.
    pub fn ready(&mut self) -> Result<(), AllocError>
        ensures same { self.new.open_files ≡ self.old.open_files }
        ensures spare { IfOk result (λ _. 1 ≤ self.new.spare) }
        ensures spare_tables { IfOk result (λ _. 1 ≤ self.new.spare_tables) }
        ensures keeps { KeepsSpare self.old self.new }
    {
        ready_places(&mut self.files, 1)?;
        ready_places(&mut self.tables, 1)
    }

    /// Opens a node at position 0, as the lowest descriptor that is free.
    #[tactic(auto, unfolding(crate::specs::Changes::opened))]
    pub fn open(&mut self, tree: &mut Tree, table: u32, node: u32, way: Way) -> Result<u32, FdFault>
        ensures opens { Opens (lowest_free self.old.open_files table) (storage tree.old self.old.open_files) table node way (storage tree.new self.new.open_files) result }
        ensures full { IsFull (lowest_free self.old.open_files table) result }
        ensures ready { 1 ≤ self.old.spare → IsNotMemory result }
        ensures number { IfOk result (λ _. free_number self.old.open_files.files < 2 ^ 32) }
        ensures uses { UsesOneFile self.old self.new }
        ensures refused { OnErr result (KeepsSpare self.old self.new) }
    {
        let Some(fd) = self.lowest_free(table) else {
            return Err(FdFault::Errno(Errno::Emfile));
        };
        let number = self.put_file(new_file(node, way))?;
        let descriptor = Descriptor {
            handle: Handle::Open(number),
            cloexec: way.cloexec,
        };
        self.set_descriptor(table, fd, Some(descriptor));
        tree.hold(node);
        Ok(fd)
    }

    pub(crate) fn put_file(&mut self, file: OpenFile) -> Result<u32, AllocError>
        ensures number { IfOk result (λ n. n ≡ free_number self.old.open_files.files) }
        ensures added { IfOk result (λ _. self.new.open_files ≡ with_open_file self.old.open_files file) }
        ensures same { OnErr result (self.new.open_files ≡ self.old.open_files) }
        ensures full { OnErr result (self.old.spare ≡ 0) }
        ensures uses { UsesOneFile self.old self.new }
    {
        put_next(&mut self.files, file)
    }

    /// Makes the lowest descriptor that is free what another one is. The two share their position.
    pub fn dup(&mut self, table: u32, fd: u32) -> Result<u32, Errno>
        ensures duplicates { Duplicates (dup_number (view self.old.open_files table fd) (lowest_free self.old.open_files table)) self.old.open_files table fd self.new.open_files result }
        ensures spare { KeepsSpare self.old self.new }
    {
        self.view(table, fd)?;
        let Some(free) = self.lowest_free(table) else {
            return Err(Errno::Emfile);
        };
        self.duplicate(table, fd, free, false);
        Ok(free)
    }

    /// Makes a descriptor, which is closed before, what another one is.
    #[tactic(auto, unfolding(crate::specs::Changes::replaced))]
    pub fn dup3(
        &mut self,
        tree: &mut Tree,
        table: u32,
        old: u32,
        new: u32,
        cloexec: bool,
    ) -> Result<(), Errno>
        ensures replaces { Does (dup3_fault (view self.old.open_files table old) old new) (storage tree.old self.old.open_files) (replaced (storage tree.old self.old.open_files) table old new cloexec) (storage tree.new self.new.open_files) result }
        ensures spare { KeepsSpare self.old self.new }
    {
        if old == new {
            return Err(Errno::Einval);
        }
        self.view(table, old)?;
        if new >= MOST_DESCRIPTORS {
            return Err(Errno::Ebadf);
        }
        self.close_descriptor(tree, table, new);
        self.duplicate(table, old, new, cloexec);
        Ok(())
    }

    #[tactic(auto, unfolding(crate::specs::Changes::duplicated))]
    fn duplicate(&mut self, table: u32, old: u32, new: u32, cloexec: bool)
        ensures files { self.new.open_files ≡ duplicated self.old.open_files table old new cloexec }
        ensures spare { KeepsSpare self.old self.new }
    {
        if let Some(descriptor) = self.descriptor(table, old) {
            let duplicate = Descriptor {
                cloexec,
                ..descriptor
            };
            self.set_descriptor(table, new, Some(duplicate));
            self.share(descriptor.handle);
        }
    }

    /// Closes a descriptor; EBADF where it isn't open.
    pub fn close(&mut self, tree: &mut Tree, table: u32, fd: u32) -> Result<(), Errno>
        ensures closes { Does (close_fault (view self.old.open_files table fd)) (storage tree.old self.old.open_files) (closed (storage tree.old self.old.open_files) table fd) (storage tree.new self.new.open_files) result }
        ensures spare { KeepsSpare self.old self.new }
    {
        self.view(table, fd)?;
        self.close_descriptor(tree, table, fd);
        Ok(())
    }

    /// Closes a descriptor, if it is open.
    #[tactic(auto, unfolding(crate::specs::Changes::closed))]
    pub(crate) fn close_descriptor(&mut self, tree: &mut Tree, table: u32, fd: u32)
        ensures storage { storage tree.new self.new.open_files ≡ closed (storage tree.old self.old.open_files) table fd }
        ensures spare { KeepsSpare self.old self.new }
    {
        if let Some(descriptor) = self.descriptor(table, fd) {
            self.set_descriptor(table, fd, None);
            self.drop_use(tree, descriptor.handle);
        }
    }

    /// One fewer descriptor shares an open file. With the last one it goes: its node is let go, or its end of a pipe closes.
    fn drop_use(&mut self, tree: &mut Tree, handle: Handle)
        ensures storage { storage tree.new self.new.open_files ≡ dropped (storage tree.old self.old.open_files) handle }
        ensures spare { KeepsSpare self.old self.new }
    {
        let Handle::Open(number) = handle else {
            return;
        };
        let Some(file) = at_number(&self.files, number) else {
            return;
        };
        if file.uses <= 1 {
            set_place(&mut self.files, number, None);
            match file.object {
                Object::File(node) => tree.let_go(node),
                Object::PipeEnd(id) => self.close_end(id, file.write),
            }
        } else {
            let uses = file.uses - 1;
            set_place(&mut self.files, number, Some(OpenFile { uses, ..file }));
        }
    }
}
