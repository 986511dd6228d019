//! The faults of what a manifest's lines bring in and start.

ghost use Rattle.std.specs.Prelude.{◌≡◌};
ghost use Rattle.run_setup.specs.declared.fault.LineFault.TheVariants.{Memory};
ghost use Rattle.run_setup.specs.Refusals.{refusal_at};

use bflt_format::FlatFault;
use call_log::Errno;
use elf2flt_tool::Refusal;
use mem_files::FileFault;
use romfs_image::RomFault;
use std::alloc::{AllocError, AllocFailed};

/// Why a line of a manifest is refused.
#[derive(Drop)]
pub enum LineFault {
    /// Its file is longer than the limit of its load.
    TooLong,
    /// The fault of its ELF file.
    Elf(Refusal),
    /// The fault of its flat file.
    Flat(FlatFault),
    /// The fault of its image.
    Rom(RomFault),
    /// Its file, or a node of its image, can't stand at its path.
    Place(Errno),
    /// Its path is that of no program.
    BadStart,
    /// Its start frame doesn't fit into the stack.
    E2big,
    /// No free run has the pages of its block.
    NoRun,
    /// Out of memory, which is no fault of a line: no refusal has it.
    Memory,
}

/// Why lines of a manifest are refused.
#[derive(Drop)]
pub enum LineRefusal {
    /// The line with this number has a fault.
    At { line: u32, fault: LineFault },
    /// Out of memory.
    Memory,
}

/// The refusal of a line with this fault.
pub fn refusal_at(line: u32, fault: LineFault) -> LineRefusal
    ensures { result ≡ refusal_at line fault }
{
    match fault {
        LineFault::Memory
        | LineFault::Elf(Refusal::Memory)
        | LineFault::Flat(FlatFault::Memory)
        | LineFault::Rom(RomFault::Memory) => LineRefusal::Memory,
        fault => LineRefusal::At { line, fault },
    }
}

impl From<AllocError> for LineFault {
    ghost from_gives = { λ _ e. e ≡ Memory };

    fn from(_error: AllocError) -> LineFault {
        LineFault::Memory
    }
}

impl<T: Drop> From<AllocFailed<T>> for LineFault {
    ghost from_gives = { λ _ e. e ≡ Memory };

    fn from(_error: AllocFailed<T>) -> LineFault {
        LineFault::Memory
    }
}

impl From<FileFault> for LineFault {
    ghost use Rattle.run_setup.specs.Faults.{place_fault};

    ghost from_gives = { λ why e. e ≡ place_fault why };

    fn from(why: FileFault) -> LineFault {
        match why {
            FileFault::Errno(errno) => LineFault::Place(errno),
            FileFault::Memory => LineFault::Memory,
        }
    }
}
