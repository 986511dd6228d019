//! What is wrong with the bytes of an image.

ghost use Rattle.std.specs.Prelude.{◌≡◌};
ghost use Rattle.romfs_image.specs.declared.fault.RomFault.TheVariants.{Memory};
ghost use Rattle.romfs_image.specs.declared.fault.MakeFault.TheVariants.{Memory as NoMemory};

use std::alloc::{AllocError, AllocFailed};

/// Why bytes are no romfs image. The first five are looked for in this order, then the next six at each
/// header in the order of the walk, and `Link` behind all of them.
#[derive(Clone, Copy, PartialEq, Eq)]
pub enum RomFault {
    /// Fewer than 32 bytes.
    Short,
    /// The first eight bytes aren't `-rom1fs-`.
    Magic,
    /// The full size is below 32, or above the number of bytes.
    FullSize,
    /// The words of the first 512 bytes, or of all where there are fewer, don't sum to 0.
    SuperSum,
    /// The volume name with its padding passes the full size.
    Volume,
    /// A header or its padded name passes the full size.
    Header,
    /// The words of a header and its padded name don't sum to 0.
    HeaderSum,
    /// A name is empty, has more than 255 bytes or a slash, or is `.` or `..` of a type above 1.
    Name,
    /// A header doesn't stand behind the one before it in the walk.
    Order,
    /// A file's data pass the full size.
    Range,
    /// Two headers of one folder have one name.
    Repeated,
    /// A hard link doesn't name the header of a file of the walk.
    Link,
    /// Out of memory, which says nothing of the bytes.
    Memory,
}

impl From<AllocError> for RomFault {
    ghost from_gives = { λ _ e. e ≡ Memory };

    fn from(_error: AllocError) -> RomFault {
        RomFault::Memory
    }
}

impl<T: Drop> From<AllocFailed<T>> for RomFault {
    ghost from_gives = { λ _ e. e ≡ Memory };

    fn from(_error: AllocFailed<T>) -> RomFault {
        RomFault::Memory
    }
}

/// Why nodes have no image.
#[derive(Clone, Copy, PartialEq, Eq)]
pub enum MakeFault {
    /// It would have more than 67,108,864 bytes.
    TooLarge,
    /// Out of memory.
    Memory,
}

impl From<AllocError> for MakeFault {
    ghost from_gives = { λ _ e. e ≡ NoMemory };

    fn from(_error: AllocError) -> MakeFault {
        MakeFault::Memory
    }
}
