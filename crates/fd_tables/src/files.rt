//! All open files, and the tables of descriptors that share them.

ghost use Rattle.std.specs.Prelude.{◌≡◌, ◌≤◌, length, IfOk};
ghost use Rattle.fd_tables.specs.Spare.{KeepsSpare};
ghost use Rattle.fd_tables.specs.Files.{nothing_open, lowest_free, descriptor, handle_view, view};
ghost use Rattle.fd_tables.specs.Changes.{moved, taken, with_descriptor};
ghost use Rattle.fd_tables.specs.Calls.{view_or_errno};

use crate::open_file::{Descriptor, Handle, OpenFile};
use crate::pipe::Pipe;
use crate::places::at_number;
use crate::shares;
use crate::shows::{console_view, file_view};
use crate::table::{self, Table};
use crate::view::View;
use call_log::Errno;
use std::alloc::{AllocError, Global};
use std::marker::Model;

/// All open files, and who has them open. A table or a descriptor that isn't there has nothing open.
#[derive(Drop)]
pub struct Files {
    // the console's input, and how much of it was taken
    stdin: Vec<u8>,
    taken: usize,
    // by number; None where the number is free
    pub(crate) files: Vec<Option<OpenFile>>,
    pub(crate) tables: Vec<Option<Table>>,
    // newest first
    pub(crate) pipes: Vec<Pipe>,
    // how many pipes were made
    pub(crate) made: u32,
    // the numbers of those that changed, ascending, with room for all
    pub(crate) changed: Vec<u32>,
}

impl Model for Files {
    ghost use Rattle.fd_tables.specs.Spare.{SpareFiles};

    ghost Value = { SpareFiles };

    ghost use Rattle.fd_tables.specs.Inside.{kept, IsRight};

    ghost view = { kept };

    ghost invariant = { IsRight };
}

impl Files {
    /// Nothing is open yet; the console's input is this.
    pub fn new(alloc: Global, stdin: Vec<u8>) -> Result<Files, AllocError>
        ensures { IfOk result (λ files. files.open_files ≡ nothing_open stdin.items) }
    {
        Ok(Files {
            stdin,
            taken: 0,
            files: Vec::new(alloc),
            tables: Vec::new(alloc),
            pipes: Vec::new(alloc),
            made: 0,
            changed: Vec::new(alloc),
        })
    }

    /// What is left of the console's input.
    pub fn stdin_left(&self) -> &[u8]
        ensures { result.now ≡ self.now.open_files.stdin }
    {
        &self.stdin[self.taken..]
    }

    /// Takes so many bytes from the front of the console's input.
    #[tactic(auto, using(crate::proofs::Numbers::drop_more), unfolding(crate::specs::Changes::taken))]
    pub fn take_stdin(&mut self, n: u32)
        requires { n ≤ length self.old.open_files.stdin }
        ensures taken { self.new.open_files ≡ taken self.old.open_files n }
        ensures spare { KeepsSpare self.old self.new }
    {
        self.taken += n as usize;
    }

    /// What a descriptor shows; EBADF where it isn't open.
    pub fn view(&self, table: u32, fd: u32) -> Result<View, Errno>
        ensures { result ≡ view_or_errno (view self.now.open_files table fd) }
    {
        match self.shown(table, fd) {
            Some(view) => Ok(view),
            None => Err(Errno::Ebadf),
        }
    }

    #[tactic(auto, unfolding(crate::specs::Files::view))]
    fn shown(&self, table: u32, fd: u32) -> Option<View>
        ensures { result ≡ view self.now.open_files table fd }
    {
        let descriptor = self.descriptor(table, fd)?;
        self.handle_view(descriptor)
    }

    fn handle_view(&self, descriptor: Descriptor) -> Option<View>
        ensures { result ≡ handle_view self.now.open_files descriptor descriptor.handle }
    {
        match descriptor.handle {
            Handle::Input => Some(console_view(true, descriptor.cloexec)),
            Handle::Output => Some(console_view(false, descriptor.cloexec)),
            Handle::Open(number) => {
                let file = at_number(&self.files, number)?;
                Some(file_view(descriptor, file))
            }
        }
    }

    /// What stands at a descriptor.
    pub(crate) fn descriptor(&self, table: u32, fd: u32) -> Option<Descriptor>
        ensures { result ≡ descriptor self.now.open_files table fd }
    {
        table::descriptor(&self.tables, table, fd)
    }

    /// Opens or closes a descriptor of a table, if that is there.
    pub(crate) fn set_descriptor(&mut self, table: u32, fd: u32, descriptor: Option<Descriptor>)
        ensures files { self.new.open_files ≡ with_descriptor self.old.open_files table fd descriptor }
        ensures spare { KeepsSpare self.old self.new }
    {
        table::set_descriptor(&mut self.tables, table, fd, descriptor);
    }

    /// The lowest descriptor of a table that isn't open; None where all are.
    #[tactic(auto, unfolding(crate::specs::Files::lowest_free))]
    pub fn lowest_free(&self, table: u32) -> Option<u32>
        ensures { result ≡ lowest_free self.now.open_files table }
    {
        table::lowest_free(&self.tables, table)
    }

    /// Moves the position of an open file, in bytes or entries; neither the console nor a pipe has one.
    #[tactic(auto, unfolding(crate::specs::Changes::moved))]
    pub fn move_to(&mut self, table: u32, fd: u32, at: u64)
        ensures moved { self.new.open_files ≡ moved self.old.open_files table fd at }
        ensures spare { KeepsSpare self.old self.new }
    {
        if let Some(
            Descriptor {
                handle: Handle::Open(number),
                ..
            },
        ) = self.descriptor(table, fd)
        {
            shares::move_to(&mut self.files, number, at);
        }
    }
}
