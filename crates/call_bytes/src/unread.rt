//! Why bytes are not read.

use std::alloc::AllocError;

/// Why the bytes of a call are not read.
#[derive(Clone, Copy, PartialEq, Eq)]
pub enum Unread {
    /// A byte of this range isn't own in the table that is read by: its first address, and its bytes.
    Stray { addr: u32, len: u32 },
    /// Out of host memory.
    Memory,
}

impl From<AllocError> for Unread {
    ghost use Rattle.std.specs.Prelude.{◌≡◌};
    ghost use Rattle.call_bytes.specs.declared.unread.Unread.TheVariants.{Memory};

    ghost from_gives = { λ _ e. e ≡ Memory };

    fn from(_error: AllocError) -> Unread {
        Unread::Memory
    }
}
