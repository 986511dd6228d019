//! The tree of files and folders.

ghost use Rattle.std.specs.Prelude.{◌≡◌, None, Some, slice_get, slice_set, IfOk};
ghost use Rattle.mem_files.specs.Inodes.{opening, inode_at, Fits};
ghost use Rattle.mem_files.specs.Changes.{kept, held, let_go, truncated};

mod making;
mod reading;
mod removing;
mod walk;
mod writing;

use crate::content::Content;
use crate::entries::Entries;
use crate::inode::Inode;
use std::alloc::{AllocError, Global};
use std::marker::Model;

/// The number of the root.
pub const ROOT: u32 = 1;

/// The most nodes, with the root.
const MOST_NODES: u32 = 65_536;

/// The most bytes of one file.
const MOST_OF_ONE: u64 = 16_777_216;

/// The most bytes of all files.
const MOST_OF_ALL: u64 = 67_108_864;

/// Files and folders in memory. Each node has a number, which isn't given again: the root has 1.
#[derive(Drop)]
pub struct Tree {
    // by their numbers; none where the node is gone
    inodes: Vec<Option<Inode>>,
    // how many nodes are there
    count: u32,
    // the bytes of all files
    bytes: u64,
}

impl Model for Tree {
    ghost use Rattle.std.specs.Prelude.{◌≡◌, ◌<◌, ◌^◌, length};
    ghost use Rattle.mem_files.specs.Inodes.{Inodes, node_count, byte_count, Fits};

    ghost Value = { Inodes };

    ghost view = { λ t. t.inodes.items };

    ghost invariant = { λ t. (t.count ≡ node_count t.inodes.items) × (t.bytes ≡ byte_count t.inodes.items) × Fits t.inodes.items × (length t.inodes.items < 2 ^ 32) };
}

impl Tree {
    /// The root alone.
    pub fn new(alloc: Global) -> Result<Tree, AllocError>
        ensures { IfOk result (λ tree. tree ≡ opening) }
    {
        let content = Content::Folder {
            parent: ROOT,
            entries: Entries::new(alloc),
        };
        let mut inodes = Vec::new(alloc);
        inodes.push(None)?;
        inodes.push(Some(Inode::new(content, None)))?;
        Ok(Tree {
            inodes,
            count: 1,
            bytes: 0,
        })
    }

    /// Holds a node once more.
    pub fn hold(&mut self, id: u32)
        ensures { self.new ≡ held self.old id }
    {
        let Some(mut inode) = self.take(id) else {
            return;
        };
        inode.hold();
        self.put(id, inode);
    }

    /// Holds a node once less.
    pub fn let_go(&mut self, id: u32)
        ensures { self.new ≡ let_go self.old id }
    {
        let Some(mut inode) = self.take(id) else {
            return;
        };
        inode.let_go();
        self.put_kept(id, inode);
    }

    /// Empties a file.
    pub fn truncate(&mut self, id: u32)
        ensures { self.new ≡ truncated self.old id }
    {
        let Some(mut inode) = self.take(id) else {
            return;
        };
        inode.truncate();
        self.put(id, inode);
    }

    /// Takes a node out of its place, to be changed and put back.
    fn take(&mut self, id: u32) -> Option<Inode>
        ensures node { result ≡ inode_at self.old id }
        ensures rest { self.new ≡ slice_set self.old id None }
        ensures fits { Fits self.old }
    {
        if id as usize >= self.inodes.len() {
            return None;
        }
        let inode = self.inodes[id as usize].take()?;
        self.count -= 1;
        self.bytes -= inode.bytes().len() as u64;
        Some(inode)
    }

    /// Puts a node into an empty place.
    fn put(&mut self, id: u32, inode: Inode)
        requires place { slice_get self.old id ≡ Some None }
        requires fits { Fits (slice_set self.old id (Some inode)) }
        ensures { self.new ≡ slice_set self.old id (Some inode) }
    {
        self.count += 1;
        self.bytes += inode.bytes().len() as u64;
        self.inodes[id as usize] = Some(inode);
    }

    /// Puts a node into an empty place, if a folder names it or an open file holds it.
    fn put_kept(&mut self, id: u32, inode: Inode)
        requires place { slice_get self.old id ≡ Some None }
        requires fits { Fits (slice_set self.old id (Some inode)) }
        ensures { self.new ≡ slice_set self.old id (kept inode) }
    {
        if inode.is_kept() {
            self.put(id, inode);
        }
    }
}
