//! The machine's physical memory: one array of bytes from address 0x80000000 on.
//!
//! What may stand here: reading and changing bytes at physical addresses, and which instruction a word is. What
//! may not: who owns a byte, which pages are free, what an instruction or a system call does. Only
//! `PhysMem::new` takes memory of the host.
#![tactic(auto)]

mod memory;
mod slots;
mod words;

pub use memory::{BASE, PAGE, PhysMem};
