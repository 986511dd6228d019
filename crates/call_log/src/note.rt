//! The notes of a run.

use crate::how::How;
use byte_words::Access;

/// Bytes that a call wrote into its caller's memory.
#[derive(Drop)]
pub struct Got {
    /// The address of the first one.
    pub addr: u32,
    pub bytes: Vec<u8>,
}

/// A system call that was made, whether it was refused or not.
#[derive(Drop)]
pub struct Entry {
    pub pid: u32,
    /// Its number, from a7.
    pub call: u32,
    /// From a0 to a5.
    pub args: [u32; 6],
    /// All bytes that it read from its caller's memory, in the order read.
    pub sent: Vec<u8>,
    /// What it left in a0.
    pub reply: u32,
    /// One item for each range that it wrote and that isn't empty, in order.
    pub got: Vec<Got>,
}

/// What is kept of one event.
#[derive(Drop)]
pub enum Note {
    /// A system call.
    Call(Entry),
    /// A program that begins.
    Load {
        pid: u32,
        /// Its index among the programs.
        program: u32,
        /// The first address of its block.
        base: u32,
        /// The pages of its block.
        pages: u32,
    },
    /// A process that ends.
    End {
        pid: u32,
        how: How,
    },
    /// An access outside of a process's own bytes.
    Stray {
        pid: u32,
        access: Access,
    },
}
