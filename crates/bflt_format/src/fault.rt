//! What is wrong with the bytes of a flat file.

ghost use Rattle.std.specs.Prelude.{◌≡◌};
ghost use Rattle.bflt_format.specs.declared.fault.FlatFault.TheVariants.{Memory};

use std::alloc::{AllocError, AllocFailed};

/// Why bytes are not a flat file that can be run. The first twelve are in the order in which they
/// are looked for.
#[derive(Clone, Copy, Debug, PartialEq, Eq)]
pub enum FlatFault {
    /// Fewer bytes than a header has, 64.
    Short,
    /// The first four bytes are not "bFLT".
    Magic,
    /// The version is not 4.
    Revision,
    /// The flags are neither 1 (RAM) nor 17 (RAM and KTRACE).
    Flags,
    /// Text, data and bss are not in this order behind the header, or the data passes the end of
    /// the file, or the image has more than 16,777,216 bytes.
    Bounds,
    /// The data does not start at a multiple of 32.
    DataAlign,
    /// The entry is not a multiple of 4 with a word of text or data there.
    Entry,
    /// A stack of more than 1,048,576 bytes.
    StackSize,
    /// There are records, and their table begins before the end of the data or passes the end of
    /// the file.
    RecordTable,
    /// A record's word does not lie in text and data.
    RecordRange,
    /// Two records are less than 4 apart.
    RecordOverlap,
    /// The number at a record is past the end of the image.
    TargetRange,
    /// Out of memory, which says nothing of the bytes.
    Memory,
}

impl From<AllocError> for FlatFault {
    ghost from_gives = { λ _ e. e ≡ Memory };

    fn from(_error: AllocError) -> FlatFault {
        FlatFault::Memory
    }
}

impl<T: Drop> From<AllocFailed<T>> for FlatFault {
    ghost from_gives = { λ _ e. e ≡ Memory };

    fn from(_error: AllocFailed<T>) -> FlatFault {
        FlatFault::Memory
    }
}
