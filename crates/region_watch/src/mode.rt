//! What becomes of a run at its first stray access.

/// What becomes of a run at its first stray access.
#[derive(Clone, Copy, PartialEq, Eq)]
pub enum Mode {
    /// It ends there.
    Halt,
    /// It goes on over all of memory, as without an MMU. An access outside memory ends its process by SIGSEGV.
    GoOn,
}
