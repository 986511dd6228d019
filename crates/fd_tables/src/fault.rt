//! Why a file isn't opened.

ghost use Rattle.std.specs.Prelude.{◌≡◌};

use call_log::Errno;
use std::alloc::AllocError;

/// Why a file isn't opened.
#[derive(Clone, Copy, Debug, PartialEq, Eq)]
pub enum FdFault {
    /// It is refused so.
    Errno(Errno),
    /// Out of host memory.
    Memory,
}

impl From<AllocError> for FdFault {
    ghost use Rattle.fd_tables.specs.declared.fault.FdFault.TheVariants.{Memory};

    ghost from_gives = { λ _ e. e ≡ Memory };

    fn from(_error: AllocError) -> FdFault {
        FdFault::Memory
    }
}
