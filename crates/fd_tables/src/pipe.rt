//! A pipe.

ghost use Rattle.std.specs.Prelude.{◌≡◌, ◌+◌, ◌≤◌, [], ◌++◌, length, take, drop, true, IfOk, Some};
ghost use Rattle.fd_tables.specs.Pipes.{most_held, shown_pipe, with_closed, is_closed};

use crate::pipe_view::PipeView;
use circular_buffer::HeapCircularBuffer;
use std::alloc::{AllocError, Global};
use std::marker::Model;

/// The most bytes that a pipe holds.
pub const MOST_HELD: u32 = 65_536;

/// A pipe: what was written and not read yet, and which of its ends are open.
#[derive(Drop)]
pub(crate) struct Pipe {
    id: u32,
    ring: HeapCircularBuffer<u8>,
    read_open: bool,
    write_open: bool,
}

impl Model for Pipe {
    ghost use Rattle.std.specs.Prelude.{◌≡◌};
    ghost use Rattle.fd_tables.specs.Files.{Pipe};
    ghost use Rattle.fd_tables.specs.Pipes.{most_held};

    ghost Value = { Pipe };

    ghost view = { λ p. record { id = p.id; bytes = p.ring.items; read_open = p.read_open; write_open = p.write_open } };

    ghost invariant = { λ p. p.ring.capacity ≡ most_held };
}

impl Pipe {
    /// An empty pipe, with the memory for all that it may hold.
    pub(crate) fn new(alloc: Global, id: u32) -> Result<Pipe, AllocError>
        ensures { IfOk result (λ p. p ≡ record { id = id; bytes = []; read_open = true; write_open = true }) }
    {
        Ok(Pipe {
            id,
            ring: HeapCircularBuffer::with_capacity(alloc, MOST_HELD as usize)?,
            read_open: true,
            write_open: true,
        })
    }

    pub(crate) fn number(&self) -> u32
        ensures { result ≡ self.now.id }
    {
        self.id
    }

    pub(crate) fn view(&self) -> PipeView
        ensures shown { result ≡ shown_pipe (Some self.now) }
        ensures most { result.held ≤ most_held }
    {
        PipeView {
            held: self.ring.len() as u32,
            read_open: self.read_open,
            write_open: self.write_open,
        }
    }

    /// So many bytes from the front.
    pub(crate) fn front(&self, alloc: Global, n: usize) -> Result<Vec<u8>, AllocError>
        ensures { IfOk result (λ bytes. bytes.items ≡ take n self.now.bytes) }
    {
        let (front, back) = self.ring.as_slices();
        let from_front = front.len().min(n);
        let from_back = back.len().min(n - from_front);
        let mut bytes = Vec::with_capacity(alloc, from_front + from_back)?;
        bytes.extend_from_slice(&front[..from_front])?;
        bytes.extend_from_slice(&back[..from_back])?;
        Ok(bytes)
    }

    /// So many bytes go from the front.
    pub(crate) fn take(&mut self, n: usize)
        requires { n ≤ length self.old.bytes }
        ensures { self.new ≡ record self.old { bytes = drop n self.old.bytes } }
    {
        self.ring.truncate_front(self.ring.len() - n);
    }

    /// Appends bytes.
    pub(crate) fn put(&mut self, bytes: &[u8])
        requires { length self.old.bytes + length bytes.now ≤ most_held }
        ensures { self.new ≡ record self.old { bytes = self.old.bytes ++ bytes.now } }
    {
        self.ring.fill_from_slice(bytes);
    }

    /// Closes an end.
    pub(crate) fn close(&mut self, write: bool)
        ensures { self.new ≡ with_closed write self.old }
    {
        if write {
            self.write_open = false;
        } else {
            self.read_open = false;
        }
    }

    /// Whether both ends are closed.
    pub(crate) fn is_closed(&self) -> bool
        ensures { result ≡ is_closed self.now }
    {
        !self.read_open && !self.write_open
    }
}
