//! A node.

ghost use Rattle.std.specs.Prelude.{◌≡◌, ◌+◌, ◌-◌, ◌≤◌, ◌<◌, ◌^◌, ◌++◌, ◌∷◌, [], false, None, length, filter, not, nat_lt, ◌||◌, bytes_eq, option_map, slice_get, OnOk, OnErr};
ghost use Rattle.mem_files.specs.Inodes.{new_inode, raised, bytes_in, entries_in, kind_in, size_in, most_of_one};
ghost use Rattle.mem_files.specs.Changes.{with_bytes, with_entries, overwritten};
ghost use Rattle.mem_files.specs.Paths.{named, id_in, looked_up, found_in};
ghost use Rattle.mem_files.specs.Seen.{entry_of};
ghost use Rattle.mem_files.specs.Stored.{IsSmall, content_value, WritesNode};

use crate::content::{Content, overwrite};
use crate::entries::Entries;
use crate::fault::FileFault;
use crate::node::Node;
use crate::place::{ABOVE, HERE};
use call_log::Errno;
use std::alloc::AllocError;
use std::marker::Model;

/// A file or a folder.
#[derive(Drop)]
pub struct Inode {
    content: Content,
    // how often the bytes were changed
    change: u64,
    // the program that it is
    program: Option<u32>,
    // whether a folder names it
    linked: bool,
    // how many open files hold it
    holds: u64,
}

impl Model for Inode {
    ghost use Rattle.mem_files.specs.Inodes.{Inode};
    ghost use Rattle.mem_files.specs.Stored.{content_value, IsSmall};

    ghost Value = { Inode };

    ghost view = { λ n. record { content = content_value n.content; change = n.change; program = n.program; linked = n.linked; holds = n.holds } };

    ghost invariant = { λ n. IsSmall (content_value n.content) };
}

impl Inode {
    pub fn new(content: Content, program: Option<u32>) -> Inode
        requires { IsSmall (content_value content) }
        ensures { result ≡ new_inode (content_value content) program }
    {
        Inode {
            content,
            change: 0,
            program,
            linked: true,
            holds: 0,
        }
    }

    pub fn kind(&self) -> Node
        ensures { result ≡ kind_in self.now.content }
    {
        match &self.content {
            Content::File(_) => Node::File,
            Content::Folder { .. } => Node::Dir,
        }
    }

    /// In bytes, and of a folder in entries.
    pub fn size(&self) -> u32
        ensures { result ≡ size_in self.now.content }
    {
        match &self.content {
            Content::File(bytes) => bytes.len() as u32,
            Content::Folder { entries, .. } => entries.len(),
        }
    }

    /// The bytes of a file; none of a folder.
    pub fn bytes(&self) -> &[u8]
        ensures bytes { result.now ≡ bytes_in self.now.content }
        ensures small { IsSmall self.now.content }
    {
        self.content.bytes()
    }

    pub fn change(&self) -> u64
        ensures { result ≡ self.now.change }
    {
        self.change
    }

    pub fn program(&self) -> Option<u32>
        ensures { result ≡ self.now.program }
    {
        self.program
    }

    /// The number that a name leads to from this node, whose own number is `at`.
    pub fn find(&self, at: u32, name: &[u8]) -> Result<Option<u32>, Errno>
        ensures { result ≡ id_in (looked_up at name.now self.now.content) }
    {
        match &self.content {
            Content::File(_) => Err(Errno::Enotdir),
            Content::Folder { parent, entries } => Ok(found_in(at, *parent, entries, name)),
        }
    }

    /// A folder's entry at a place.
    pub fn entry(&self, k: u32) -> Option<(&[u8], u32)>
        ensures { option_map entry_of result ≡ slice_get (entries_in self.now.content) k }
    {
        match &self.content {
            Content::File(_) => None,
            Content::Folder { entries, .. } => entries.get(k),
        }
    }

    /// Whether a folder names it or an open file holds it.
    pub fn is_kept(&self) -> bool
        ensures { result ≡ (self.now.linked || nat_lt 0 self.now.holds) }
    {
        self.linked || self.holds > 0
    }

    pub fn hold(&mut self)
        ensures { self.new ≡ record self.old { holds = raised self.old.holds } }
    {
        self.holds = self.holds.saturating_add(1);
    }

    pub fn let_go(&mut self)
        ensures { self.new ≡ record self.old { holds = self.old.holds - 1 } }
    {
        self.holds = self.holds.saturating_sub(1);
    }

    /// No folder names it any more.
    pub fn unlink(&mut self)
        ensures { self.new ≡ record self.old { linked = false } }
    {
        self.linked = false;
    }

    /// Empties a file.
    pub fn truncate(&mut self)
        ensures { self.new ≡ with_bytes (λ bytes. []) self.old }
    {
        let Content::File(bytes) = &mut self.content else {
            return;
        };
        bytes.clear();
        self.change = self.change.saturating_add(1);
    }

    /// Writes into a file, which may then have at most so many bytes. A folder stays, and so does any node that isn't written.
    pub fn write(&mut self, at: usize, bytes: &[u8], most: u64) -> Result<(), FileFault>
        requires { at + length bytes.now ≤ most_of_one }
        ensures { WritesNode (with_bytes (overwritten at bytes.now) self.old) most self.old self.new result }
    {
        let Content::File(file) = &mut self.content else {
            return Ok(());
        };
        if (at + bytes.len()).max(file.len()) as u64 > most {
            return Err(FileFault::Errno(Errno::Enospc));
        }
        overwrite(file, at, bytes)?;
        self.change = self.change.saturating_add(1);
        Ok(())
    }

    /// Adds an entry to a folder. A file, and any node where memory is out, stays as it was.
    pub fn add(&mut self, name: Vec<u8>, id: u32) -> Result<(), AllocError>
        requires { named name.items (entries_in self.old.content) ≡ None }
        ensures added { OnOk result (self.new ≡ with_entries (λ entries. entries ++ record { name = name.items; id = id } ∷ []) self.old) }
        ensures err { OnErr result (self.new ≡ self.old) }
    {
        let Content::Folder { entries, .. } = &mut self.content else {
            return Ok(());
        };
        entries.push(name, id)
    }

    /// Takes the entry with a name off a folder. A file stays.
    pub fn remove(&mut self, name: &[u8])
        ensures { self.new ≡ with_entries (λ entries. filter (λ e. not (bytes_eq e.name name.now)) entries) self.old }
    {
        if let Content::Folder { entries, .. } = &mut self.content {
            entries.remove(name);
        }
    }
}

/// The number that a name leads to in a folder, with its own number and that of the folder that it stands in.
fn found_in(at: u32, parent: u32, entries: &Entries, name: &[u8]) -> Option<u32>
    ensures { result ≡ found_in at parent entries.now name.now }
{
    if name == HERE {
        Some(at)
    } else if name == ABOVE {
        Some(parent)
    } else {
        entries.find(name)
    }
}
