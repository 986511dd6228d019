//! Why a file or a folder isn't made or written.

ghost use Rattle.std.specs.Prelude.{◌≡◌};

use call_log::Errno;
use std::alloc::AllocError;

/// Why a file or a folder isn't made or written.
#[derive(Clone, Copy, Debug, PartialEq, Eq)]
pub enum FileFault {
    /// It is refused so.
    Errno(Errno),
    /// Out of host memory.
    Memory,
}

impl From<AllocError> for FileFault {
    ghost use Rattle.mem_files.specs.declared.fault.FileFault.TheVariants.{Memory};

    ghost from_gives = { λ _ e. e ≡ Memory };

    fn from(_error: AllocError) -> FileFault {
        FileFault::Memory
    }
}

impl From<Errno> for FileFault {
    ghost use Rattle.mem_files.specs.declared.fault.FileFault.TheVariants.{Errno};

    ghost from_gives = { λ errno e. e ≡ Errno errno };

    fn from(errno: Errno) -> FileFault {
        FileFault::Errno(errno)
    }
}
