//! Why a call maps nothing.

use std::alloc::AllocError;

/// Why nothing is mapped.
#[derive(Clone, Copy, PartialEq, Eq)]
pub enum MapFault {
    /// A fresh run of pages is needed, and no free run has so many.
    Enomem,
    /// Out of host memory.
    Memory,
}

impl From<AllocError> for MapFault {
    ghost use Rattle.std.specs.Prelude.{◌≡◌};
    ghost use Rattle.mmap_rules.specs.declared.map_fault.MapFault.TheVariants.{Memory};

    ghost from_gives = { λ _ e. e ≡ Memory };

    fn from(_error: AllocError) -> MapFault {
        MapFault::Memory
    }
}
