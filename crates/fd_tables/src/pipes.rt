//! Pipes: made, read, written, and marked where they changed.

ghost use Rattle.std.specs.Prelude.{◌≡◌, ℕ, ◌+◌, ◌≤◌, ◌<◌, ◌^◌, length, count_by, is_some, take, position, nat_le, IfOk, IfSome, OnErr, Some};
ghost use Rattle.vfork_exec.specs.Keyed.{Falls, place_of};
ghost use Rattle.fd_tables.specs.Inside.{Rises};
ghost use Rattle.fd_tables.specs.Spare.{KeepsSpare};
ghost use Rattle.fd_tables.specs.Files.{free_number, two_free};
ghost use Rattle.fd_tables.specs.Pipes.{most_held, pipe_id, pipe_view, pipe_bytes, pipe_taken, pipe_put, without_end, marked, with_pipe};
ghost use Rattle.fd_tables.specs.Changes.{with_end, piped};
ghost use Rattle.fd_tables.specs.Calls.{IsFull, Pipes, Unmarks};

use crate::fault::FdFault;
use crate::files::Files;
use crate::open_file::{Descriptor, Handle};
use crate::pipe::Pipe;
use crate::pipe_view::{Ends, PipeView};
use crate::places::ready_places;
use crate::shares::pipe_end;
use crate::table;
use call_log::Errno;
use std::alloc::{AllocError, Global};

impl Files {
    /// Makes an empty pipe, with the memory for all that it may hold. Its reading end opens as the lowest descriptor that is free,
    /// its writing end as the next one.
    #[tactic(auto, unfolding(crate::specs::Changes::piped))]
    pub fn pipe(&mut self, table: u32, cloexec: bool) -> Result<Ends, FdFault>
        ensures pipes { Pipes (two_free self.old.open_files table) self.old.open_files table cloexec self.new.open_files result }
        ensures full { IsFull (two_free self.old.open_files table) result }
        ensures spare { self.old.spare ≤ self.new.spare + 2 }
        ensures ready { 1 ≤ self.old.spare → 1 ≤ self.new.spare }
        ensures spare_tables { self.old.spare_tables ≤ self.new.spare_tables }
        ensures refused { OnErr result (KeepsSpare self.old self.new) }
        ensures numbers { IfOk result (λ _. count_by is_some self.old.open_files.files + 2 ≤ 2 ^ 32) }
    {
        let Some(ends) = self.two_free(table) else {
            return Err(FdFault::Errno(Errno::Emfile));
        };
        let id = self.add_pipe()?;
        self.open_end(table, ends.read, id, false, cloexec);
        self.open_end(table, ends.write, id, true, cloexec);
        Ok(ends)
    }

    /// The two lowest descriptors of a table that aren't open; None where fewer are.
    #[tactic(auto, unfolding(crate::specs::Files::two_free))]
    pub fn two_free(&self, table: u32) -> Option<Ends>
        ensures { result ≡ two_free self.now.open_files table }
    {
        table::two_free(&self.tables, table)
    }

    /// A pipe more, that no descriptor leads to yet, and the memory to open its ends and one file more.
    fn add_pipe(&mut self) -> Result<u32, AllocError>
        ensures id { IfOk result (λ id. id ≡ self.old.open_files.next_pipe) }
        ensures added { IfOk result (λ _. self.new.open_files ≡ with_pipe self.old.open_files) }
        ensures spare { IfOk result (λ _. 3 ≤ self.new.spare) }
        ensures same { OnErr result (self.new.open_files ≡ self.old.open_files) }
        ensures keeps { KeepsSpare self.old self.new }
        ensures numbers { IfOk result (λ _. length self.old.open_files.files + 3 ≤ 2 ^ 32) }
    {
        if self.made == u32::MAX {
            return Err(AllocError);
        }
        let id = self.made + 1;
        let pipe = Pipe::new(*self.files.allocator(), id)?;
        ready_places(&mut self.files, 3)?;
        self.changed.reserve(self.pipes.len() + 1)?;
        self.pipes.insert(0, pipe)?;
        self.made = id;
        Ok(id)
    }

    /// Opens an end of a pipe as a descriptor.
    fn open_end(&mut self, table: u32, fd: u32, id: u32, write: bool, cloexec: bool)
        requires { 1 ≤ self.old.spare }
        ensures opened { self.new.open_files ≡ with_end self.old.open_files table fd id write cloexec }
        ensures spare { self.old.spare ≤ self.new.spare + 1 }
        ensures spare_tables { self.old.spare_tables ≤ self.new.spare_tables }
    {
        match self.put_file(pipe_end(id, write)) {
            Ok(number) => {
                let descriptor = Descriptor {
                    handle: Handle::Open(number),
                    cloexec,
                };
                self.set_descriptor(table, fd, Some(descriptor));
            }
            Err(_) => unreachable!(),
        }
    }

    /// What a pipe shows. One that is gone holds nothing, and has no open end.
    #[tactic(auto, unfolding(crate::specs::Pipes::pipe_view))]
    pub fn pipe_view(&self, id: u32) -> PipeView
        ensures shown { result ≡ pipe_view self.now.open_files id }
        ensures held { result.held ≡ length (pipe_bytes self.now.open_files id) }
        ensures most { result.held ≤ most_held }
    {
        match self.pipes.get(self.pipe_place(id)) {
            Some(pipe) => pipe.view(),
            None => PipeView {
                held: 0,
                read_open: false,
                write_open: false,
            },
        }
    }

    /// So many bytes from a pipe's front, or all that it holds where they are fewer. They stay there.
    #[tactic(auto, unfolding(crate::specs::Pipes::pipe_bytes))]
    pub fn pipe_front(&self, alloc: Global, id: u32, n: usize) -> Result<Vec<u8>, AllocError>
        ensures { IfOk result (λ bytes. bytes.items ≡ take n (pipe_bytes self.now.open_files id)) }
    {
        match self.pipes.get(self.pipe_place(id)) {
            Some(pipe) => pipe.front(alloc, n),
            None => Ok(Vec::new(alloc)),
        }
    }

    /// Takes so many bytes from a pipe's front.
    #[tactic(auto, unfolding(crate::specs::Pipes::pipe_taken))]
    pub fn pipe_take(&mut self, id: u32, n: u32)
        requires { n ≤ length (pipe_bytes self.old.open_files id) }
        ensures taken { self.new.open_files ≡ pipe_taken self.old.open_files id n }
        ensures spare { KeepsSpare self.old self.new }
    {
        if n == 0 {
            return;
        }
        let at = self.pipe_place(id);
        if at < self.pipes.len() {
            self.pipes[at].take(n as usize);
            self.mark(id);
        }
    }

    /// Appends bytes to a pipe.
    #[tactic(auto, unfolding(crate::specs::Pipes::pipe_put))]
    pub fn pipe_put(&mut self, id: u32, bytes: &[u8])
        requires { length (pipe_bytes self.old.open_files id) + length bytes.now ≤ most_held }
        ensures put { self.new.open_files ≡ pipe_put self.old.open_files id bytes.now }
        ensures spare { KeepsSpare self.old self.new }
    {
        if bytes.is_empty() {
            return;
        }
        let at = self.pipe_place(id);
        if at < self.pipes.len() {
            self.pipes[at].put(bytes);
            self.mark(id);
        }
    }

    /// Closes an end of a pipe. With both ends it goes.
    #[tactic(auto, unfolding(crate::specs::Pipes::without_end))]
    pub(crate) fn close_end(&mut self, id: u32, write: bool)
        ensures closed { self.new.open_files ≡ without_end self.old.open_files id write }
        ensures spare { KeepsSpare self.old self.new }
    {
        let at = self.pipe_place(id);
        if at >= self.pipes.len() {
            return;
        }
        self.mark(id);
        self.pipes[at].close(write);
        if self.pipes[at].is_closed() {
            self.pipes.remove(at);
        }
    }

    /// The lowest pipe that is marked, whose mark goes. A pipe is marked where its bytes changed or one of its ends closed since its
    /// mark went; it may be gone itself.
    pub fn next_changed(&mut self) -> Option<u32>
        ensures changed { Unmarks self.old.open_files self.new.open_files result }
        ensures lowest { IfSome result (λ id. Rises (id + 1) self.new.open_files.changed) }
        ensures spare { KeepsSpare self.old self.new }
    {
        if self.changed.is_empty() {
            return None;
        }
        Some(self.changed.remove(0))
    }

    /// Marks a pipe that is there.
    fn mark(&mut self, id: u32)
        requires { place_of pipe_id id self.old.open_files.pipes < length self.old.open_files.pipes }
        ensures marked { self.new.open_files ≡ marked id self.old.open_files }
        ensures spare { KeepsSpare self.old self.new }
    {
        let at = number_place(&self.changed, id).unwrap_or(self.changed.len());
        if at < self.changed.len() && self.changed[at] == id {
            return;
        }
        if self.changed.insert(at, id).is_err() {
            unreachable!();
        }
    }

    /// The place of a pipe, or how many there are.
    fn pipe_place(&self, id: u32) -> usize
        ensures { result ≡ place_of pipe_id id self.now.open_files.pipes }
    {
        first_place(&self.pipes, id)
    }
}

/// The place of the pipe with this number, or how many there are: the numbers fall, so that half of them is left each time.
fn first_place(pipes: &[Pipe], id: u32) -> usize
    requires { (bound : ℕ) × Falls pipe_id bound pipes.now }
    ensures { result ≡ place_of pipe_id id pipes.now }
{
    let (mut low, mut high) = (0, pipes.len());
    while low < high {
        let middle = low + (high - low) / 2;
        if pipes[middle].number() > id {
            low = middle + 1;
        } else {
            high = middle;
        }
    }
    if low < pipes.len() && pipes[low].number() == id {
        return low;
    }
    pipes.len()
}

/// The place of the first number that isn't below this one.
fn number_place(numbers: &[u32], id: u32) -> Option<usize>
    ensures { result ≡ position (λ x. nat_le id x) numbers.now }
{
    numbers.iter().position(|number| *number >= id)
}
