//! Why a text has no items.

ghost use Rattle.std.specs.Prelude.{◌≡◌};
ghost use Rattle.items_text.specs.declared.fault.ItemsFault.TheVariants.{Memory};

use std::alloc::{AllocError, AllocFailed};

/// Why a text isn't read.
#[derive(Clone, Copy, PartialEq, Eq)]
pub enum ItemsFault {
    /// The first line that isn't of the grammar, or isn't in its order, from 1. Where the last line is missing, it is the one
    /// behind the text's last.
    At { line: u32 },
    /// Out of host memory, or the text has 2^32 - 1 bytes or more. It says nothing of the lines.
    Memory,
}

impl From<AllocError> for ItemsFault {
    ghost from_gives = { λ _ e. e ≡ Memory };

    fn from(_error: AllocError) -> ItemsFault {
        ItemsFault::Memory
    }
}

impl<T: Drop> From<AllocFailed<T>> for ItemsFault {
    ghost from_gives = { λ _ e. e ≡ Memory };

    fn from(_error: AllocFailed<T>) -> ItemsFault {
        ItemsFault::Memory
    }
}
