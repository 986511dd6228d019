//! Tables come and go.

ghost use Rattle.std.specs.Prelude.{◌≡◌, ◌||◌, [], ◌∷◌, ◌≤◌, IfOk, IsOk, OnErr};
ghost use Rattle.fd_tables.specs.Spare.{KeepsSpare, UsesOneTable};
ghost use Rattle.fd_tables.specs.Files.{free_number};
ghost use Rattle.fd_tables.specs.Changes.{storage, with_table, with_copy, exec_closed, without_table, shared, all_shared, all_closed, all_descriptors};

use crate::files::Files;
use crate::open_file::Handle;
use crate::places::{at_number, next_number, put_next, set_place};
use crate::shares::share;
use crate::table::{MOST_DESCRIPTORS, Table, first_table};
use mem_files::Tree;
use std::alloc::AllocError;

impl Files {
    /// A table in which descriptor 0 reads the console, and 1 and 2 write to it. It gets the lowest number that is free.
    #[tactic(auto, unfolding(crate::specs::Changes::with_table))]
    pub fn new_table(&mut self) -> Result<u32, AllocError>
        ensures table { IfOk result (λ t. t ≡ free_number self.old.open_files.tables) }
        ensures added { IfOk result (λ _. self.new.open_files ≡ with_table self.old.open_files) }
        ensures same { OnErr result (self.new.open_files ≡ self.old.open_files) }
        ensures ready { 1 ≤ self.old.spare_tables → IsOk result }
        ensures uses { UsesOneTable self.old self.new }
        ensures refused { OnErr result (KeepsSpare self.old self.new) }
    {
        put_next(&mut self.tables, first_table())
    }

    /// A copy of a table. Its descriptors share the positions of those that they are copied from. A table that isn't there has none,
    /// and nothing changes.
    #[tactic(auto, unfolding(crate::specs::Changes::with_copy))]
    pub fn copy_table(&mut self, table: u32) -> Result<u32, AllocError>
        ensures table { IfOk result (λ t. t ≡ free_number self.old.open_files.tables) }
        ensures added { IfOk result (λ _. self.new.open_files ≡ with_copy self.old.open_files table) }
        ensures same { OnErr result (self.new.open_files ≡ self.old.open_files) }
        ensures ready { 1 ≤ self.old.spare_tables → IsOk result }
        ensures uses { UsesOneTable self.old self.new }
        ensures refused { OnErr result (KeepsSpare self.old self.new) }
    {
        let Some(copy) = at_number(&self.tables, table) else {
            return next_number(&self.tables);
        };
        let number = put_next(&mut self.tables, copy)?;
        self.share_all(&copy);
        Ok(number)
    }

    #[tactic(auto, using(crate::proofs::Walked::shared_more))]
    fn share_all(&mut self, table: &Table)
        ensures files { self.new.open_files ≡ all_shared self.old.open_files table.now }
        ensures spare { KeepsSpare self.old self.new }
    {
        for place in table {
            if let Some(descriptor) = place {
                self.share(descriptor.handle);
            }
        }
    }

    /// One more descriptor shares what this one stands for.
    pub(crate) fn share(&mut self, handle: Handle)
        ensures files { self.new.open_files ≡ shared self.old.open_files handle }
        ensures spare { KeepsSpare self.old self.new }
    {
        if let Handle::Open(number) = handle {
            share(&mut self.files, number);
        }
    }

    /// A table goes, and all its descriptors close.
    #[tactic(auto, unfolding(crate::specs::Changes::without_table))]
    pub fn drop_table(&mut self, tree: &mut Tree, table: u32)
        ensures storage { storage tree.new self.new.open_files ≡ without_table (storage tree.old self.old.open_files) table }
        ensures spare { KeepsSpare self.old self.new }
    {
        self.close_all(tree, table, true);
        if at_number(&self.tables, table).is_some() {
            set_place(&mut self.tables, table, None);
        }
    }

    /// Closes what closes at an execve.
    #[tactic(auto, unfolding(crate::specs::Changes::exec_closed))]
    pub fn exec_close(&mut self, tree: &mut Tree, table: u32)
        ensures storage { storage tree.new self.new.open_files ≡ exec_closed (storage tree.old self.old.open_files) table }
        ensures spare { KeepsSpare self.old self.new }
    {
        self.close_all(tree, table, false);
    }

    /// Closes all descriptors, or just those that close at an execve.
    #[tactic(auto, using(crate::proofs::Walked::closed_more, crate::proofs::Walked::all_of))]
    fn close_all(&mut self, tree: &mut Tree, table: u32, all: bool)
        ensures storage { storage tree.new self.new.open_files ≡ all_closed (λ d. all || d.cloexec) (storage tree.old self.old.open_files) table all_descriptors }
        ensures spare { KeepsSpare self.old self.new }
    {
        for fd in 0..MOST_DESCRIPTORS {
            self.close_if(tree, table, fd, all);
        }
    }

    fn close_if(&mut self, tree: &mut Tree, table: u32, fd: u32, all: bool)
        ensures storage { storage tree.new self.new.open_files ≡ all_closed (λ d. all || d.cloexec) (storage tree.old self.old.open_files) table (fd ∷ []) }
        ensures spare { KeepsSpare self.old self.new }
    {
        if let Some(descriptor) = self.descriptor(table, fd) {
            if all || descriptor.cloexec {
                self.close_descriptor(tree, table, fd);
            }
        }
    }
}
