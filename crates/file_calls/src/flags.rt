//! The flags of calls.

ghost use Rattle.std.specs.Prelude.{◌≡◌, ◌==◌, ◌||◌, ◌&&◌, not};
ghost use Rattle.machine_world.specs.PathCalls.{creates, exclusive, truncates, asks_folder, writes, access, way_of};

use call_log::has_flag;
use fd_tables::Way;

const O_CREAT: u32 = 0x40;

const O_EXCL: u32 = 0x80;

const O_TRUNC: u32 = 0x200;

const O_APPEND: u32 = 0x400;

const O_DIRECTORY: u32 = 0x10000;

/// The one flag that dup3 and pipe2 take, and one of openat.
pub(crate) const O_CLOEXEC: u32 = 0x80000;

/// The flags of openat.
#[derive(Clone, Copy, PartialEq, Eq)]
pub(crate) struct OpenFlags {
    pub bits: u32,
}

impl OpenFlags {
    /// Whether openat takes them: no way to open is 3, and no folder is made.
    pub fn are_valid(self) -> bool
        ensures { result ≡ not (access self.bits == 3 || (creates self.bits && asks_folder self.bits)) }
    {
        self.access() != 3 && !(self.creates() && self.asks_folder())
    }

    /// O_CREAT
    pub fn creates(self) -> bool
        ensures { result ≡ creates self.bits }
    {
        has_flag(self.bits, O_CREAT)
    }

    /// O_EXCL
    pub fn is_exclusive(self) -> bool
        ensures { result ≡ exclusive self.bits }
    {
        has_flag(self.bits, O_EXCL)
    }

    /// O_TRUNC
    pub fn truncates(self) -> bool
        ensures { result ≡ truncates self.bits }
    {
        has_flag(self.bits, O_TRUNC)
    }

    /// O_DIRECTORY
    pub fn asks_folder(self) -> bool
        ensures { result ≡ asks_folder self.bits }
    {
        has_flag(self.bits, O_DIRECTORY)
    }

    /// O_WRONLY or O_RDWR
    pub fn writes(self) -> bool
        ensures { result ≡ writes self.bits }
    {
        self.access() > 0
    }

    /// With O_APPEND and O_CLOEXEC.
    pub fn way(self) -> Way
        ensures { result ≡ way_of self.bits }
    {
        Way {
            read: self.access() != 1,
            write: self.writes(),
            append: has_flag(self.bits, O_APPEND),
            cloexec: has_flag(self.bits, O_CLOEXEC),
        }
    }

    /// O_RDONLY is 0, O_WRONLY 1 and O_RDWR 2.
    fn access(self) -> u32
        ensures { result ≡ access self.bits }
    {
        self.bits % 4
    }
}

/// Whether flags are none, or this one.
pub(crate) fn is_none_or(flags: u32, flag: u32) -> bool
    ensures { result ≡ (flags == 0 || flags == flag) }
{
    flags == 0 || flags == flag
}
