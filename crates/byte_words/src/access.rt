//! Accesses to bytes by address.

/// An access to `len` bytes from `addr` on, by the instruction at `pc`.
#[derive(Clone, Copy, PartialEq, Eq)]
pub struct Access {
    pub pc: u32,
    pub addr: u32,
    pub len: u32,
    pub kind: AccessKind,
}

/// What an access is for.
#[derive(Clone, Copy, PartialEq, Eq)]
pub enum AccessKind {
    /// An instruction.
    Fetch,
    /// A load instruction.
    Load,
    /// A store instruction.
    Store,
    /// The input or output of a system call.
    Call,
}
