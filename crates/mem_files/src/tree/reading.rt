//! What is read of a node.

ghost use Rattle.std.specs.Prelude.{◌≡◌, ◌++◌, None, is_some, min, length, take, drop, option_map, option_copied, slice_get};
ghost use Rattle.mem_files.specs.Inodes.{inode_at, kind_of, size_of, change_of, program_of, bytes_of, entries_of};
ghost use Rattle.mem_files.specs.Seen.{entry_of};

use super::Tree;
use crate::inode::Inode;
use crate::node::Node;

impl Tree {
    /// Whether there is a node of this number.
    pub fn has(&self, id: u32) -> bool
        ensures { result ≡ is_some (inode_at self.now id) }
    {
        self.inode(id).is_some()
    }

    /// What a node is. A number of no node reads as that of an empty file, here and in the calls below.
    pub fn kind(&self, id: u32) -> Node
        ensures { result ≡ kind_of self.now id }
    {
        match self.inode(id) {
            Some(inode) => inode.kind(),
            None => Node::File,
        }
    }

    /// In bytes, and of a folder in entries.
    pub fn size(&self, id: u32) -> u32
        ensures { result ≡ size_of self.now id }
    {
        match self.inode(id) {
            Some(inode) => inode.size(),
            None => 0,
        }
    }

    /// How often the bytes of a file were changed.
    pub fn change(&self, id: u32) -> u64
        ensures { result ≡ change_of self.now id }
    {
        match self.inode(id) {
            Some(inode) => inode.change(),
            None => 0,
        }
    }

    /// The number of the program that a file is.
    pub fn program(&self, id: u32) -> Option<u32>
        ensures { result ≡ program_of self.now id }
    {
        self.inode(id)?.program()
    }

    /// The bytes of a file; none of a folder.
    pub fn bytes(&self, id: u32) -> &[u8]
        ensures { result.now ≡ bytes_of self.now id }
    {
        match self.inode(id) {
            Some(inode) => inode.bytes(),
            None => &[],
        }
    }

    /// Reads from a position on, as much as is there and fits, and gives the number of bytes.
    pub fn read_at(&self, id: u32, at: u64, into: &mut [u8]) -> usize
        ensures count { result ≡ min (length into.old) (length (drop at (bytes_of self.now id))) }
        ensures bytes { into.new ≡ take result (drop at (bytes_of self.now id)) ++ drop result into.old }
    {
        let bytes = self.bytes(id);
        let at = at.min(bytes.len() as u64) as usize;
        let left = &bytes[at..];
        let count = into.len().min(left.len());
        into[..count].copy_from_slice(&left[..count]);
        count
    }

    /// A folder's entry at a place, in the order in which they were made: its name, and the number of its node.
    pub fn entry(&self, id: u32, k: u32) -> Option<(&[u8], u32)>
        ensures { option_map entry_of result ≡ slice_get (entries_of self.now id) k }
    {
        match self.inode(id) {
            Some(inode) => inode.entry(k),
            None => None,
        }
    }

    /// The node of a number.
    pub(super) fn inode(&self, id: u32) -> Option<&Inode>
        ensures { option_copied result ≡ inode_at self.now id }
    {
        self.inodes.get(id as usize)?.as_ref()
    }
}
