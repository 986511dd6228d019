//! What a load gives.

use mmap_rules::Space;
use rv32im_step::Regs;

/// A program that was loaded: its space, its first registers, and its block, which begins at address `base`
/// and has `pages` pages.
#[derive(Drop)]
pub struct Loaded {
    pub space: Space,
    pub regs: Regs,
    pub base: u32,
    pub pages: u32,
}

/// Why a program is not loaded.
#[derive(Clone, Copy, PartialEq, Eq, Drop)]
pub enum LoadRefusal {
    /// The start frame does not fit in the stack.
    E2big,
    /// No free run of pages holds the block.
    NoRun,
    /// The host has no memory for the table of the program's own bytes.
    Memory,
}
