//! How one step ended.

use byte_words::Access;

/// How one step ended. Only after `Next` have registers or memory changed.
#[derive(Clone, Copy, PartialEq, Eq)]
pub enum Stop {
    /// The instruction was carried out.
    Next,
    /// The instruction at pc is ECALL.
    Call,
    /// A signal by Linux's number: 4, SIGILL, for an illegal instruction, 5, SIGTRAP, for EBREAK, and 7,
    /// SIGBUS, for a jump to an address that isn't a multiple of 4.
    Trap(u32),
    /// The bus refused this access.
    Refused(Access),
}
