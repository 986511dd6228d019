//! What is wrong with a manifest.

ghost use Rattle.std.specs.Prelude.{◌≡◌};
ghost use Rattle.manifest_text.specs.declared.fault.ManifestRefusal.TheVariants.{Memory};

use std::alloc::{AllocError, AllocFailed};

/// Why a line, or a manifest, isn't read. Of the faults of one line the first in this order counts.
#[derive(Clone, Copy, Debug, PartialEq, Eq)]
pub enum ManifestFault {
    /// The line has a byte outside 0x20 to 0x7e.
    BadByte,
    /// Its first word isn't one of the twelve.
    UnknownWord,
    /// It has too few or too many words.
    WordCount,
    /// A number isn't written as one, or is out of its range.
    BadNumber,
    /// A path doesn't begin with a slash, is too long, or has a name that is empty, too long, `.` or `..`.
    BadPath,
    /// A line that may stand once stands again.
    Repeated,
    /// There are too many such lines, or quanta.
    TooMany,
    /// There is a start line, but no quanta line. It is of line 0.
    NoQuanta,
    /// There is no start line. It is of line 0.
    NoStart,
}

/// Why there is no manifest.
#[derive(Clone, Copy, Debug, PartialEq, Eq)]
pub enum ManifestRefusal {
    /// A fault of the line with this number, from 1.
    At { line: u32, fault: ManifestFault },
    /// Out of host memory, or the text has 2^32 - 1 bytes or more. It says nothing of the lines.
    Memory,
}

impl From<AllocError> for ManifestRefusal {
    ghost from_gives = { λ _ e. e ≡ Memory };

    fn from(_error: AllocError) -> ManifestRefusal {
        ManifestRefusal::Memory
    }
}

impl<T: Drop> From<AllocFailed<T>> for ManifestRefusal {
    ghost from_gives = { λ _ e. e ≡ Memory };

    fn from(_error: AllocFailed<T>) -> ManifestRefusal {
        ManifestRefusal::Memory
    }
}
