//! What mmap2 asks for (Linux, mmap(2); include/uapi/asm-generic/mman-common.h, in this project's profile).

ghost use Rattle.std.specs.Prelude.{◌≡◌, ◌+◌, ◌<◌, ◌≤◌, IfOk};
ghost use Rattle.mmap_rules.specs.Want.{pages_for, wanted, wanted_file, of_side, AsksPages};

use call_log::{Errno, has_flag};

const MAP_SHARED: u32 = 0x1;

const MAP_PRIVATE: u32 = 0x2;

const MAP_FIXED: u32 = 0x10;

/// The flag of mmap2 for pages that aren't a file's.
pub const MAP_ANONYMOUS: u32 = 0x20;

/// The bit of its protection for pages that may be written.
pub const PROT_WRITE: u32 = 0x2;

/// The bytes of a page.
const PAGE: u64 = phys_mem::PAGE as u64;

/// What a descriptor of mmap2 leads to.
#[derive(Clone, Copy)]
pub enum FileSide {
    /// It isn't open.
    Closed,
    /// It is open, and no file.
    NotFile,
    /// A file that isn't open for reading.
    NoRead,
    /// The file of this number, whose bytes were changed so many times.
    File { id: u32, change: u64 },
}

/// A mapping that mmap2 asks for.
#[derive(Clone, Copy)]
pub enum Want {
    /// So many pages of zeros.
    Anon {
        pages: u32,
    },
    /// So many pages of a file, from its page `first` on.
    File {
        pages: u32,
        first: u32,
        write: bool,
        id: u32,
        change: u64,
    },
}

/// The pages that so many bytes take.
pub fn pages_for(len: u32) -> u32
    ensures { result ≡ pages_for len }
{
    ((u64::from(len) + (PAGE - 1)) / PAGE) as u32
}

/// What mmap2 asks for, or why it is refused, but for ENOMEM. `first` is the first page of the file.
#[tactic(auto, unfolding(crate::specs::Want::wanted))]
pub fn check_mmap2(
    addr: u32,
    len: u32,
    prot: u32,
    flags: u32,
    first: u32,
    file: FileSide,
) -> Result<Want, Errno>
    ensures wanted { result ≡ wanted addr len prot flags first file }
    ensures pages { IfOk result AsksPages }
{
    if len == 0 {
        return Err(Errno::Einval);
    }
    if has_flag(flags, MAP_FIXED) || addr != 0 {
        return Err(Errno::Einval);
    }
    if has_flag(flags, MAP_SHARED) == has_flag(flags, MAP_PRIVATE) {
        return Err(Errno::Einval);
    }
    let pages = pages_for(len);
    if has_flag(flags, MAP_ANONYMOUS) {
        return Ok(Want::Anon { pages });
    }
    check_file(pages, prot, flags, first, file)
}

/// The same of pages of a file.
fn check_file(pages: u32, prot: u32, flags: u32, first: u32, file: FileSide) -> Result<Want, Errno>
    requires some { 0 < pages }
    ensures wanted { result ≡ wanted_file pages prot flags first file }
    ensures pages { IfOk result AsksPages }
{
    if u64::from(first) + u64::from(pages) > 1 << 32 {
        return Err(Errno::Eoverflow);
    }
    match file {
        FileSide::Closed => Err(Errno::Ebadf),
        _ if has_flag(flags, MAP_SHARED) => Err(Errno::Enodev),
        FileSide::NotFile => Err(Errno::Enodev),
        FileSide::NoRead => Err(Errno::Eacces),
        FileSide::File { id, change } => Ok(Want::File {
            pages,
            first,
            write: has_flag(prot, PROT_WRITE),
            id,
            change,
        }),
    }
}
