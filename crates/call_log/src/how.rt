//! How a process ends.

/// How a process ends.
#[derive(Clone, Copy, PartialEq, Eq)]
pub enum How {
    /// By exit or exit_group, with the lowest eight bits of the code.
    Exit(u8),
    /// By a signal of this number.
    Signal(u8),
}
