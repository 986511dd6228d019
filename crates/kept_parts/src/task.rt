//! What is kept of a process.

use rv32im_step::Regs;

/// A process that lives: its registers, its space, and what it has open.
#[derive(Clone, Copy, PartialEq, Eq, Drop)]
pub struct Task {
    pub regs: Regs,
    /// Its place among the spaces of `KeptParts`.
    pub space: u32,
    /// The number of its table of descriptors.
    pub table: u32,
}
