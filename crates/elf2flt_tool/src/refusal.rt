//! Why a file isn't converted.

use elf32_reader::ElfFault;
use flat_layout::LayoutFault;
use psabi_relocs::RelocFault;
use std::alloc::{AllocError, AllocFailed};
use thiserror::Error;

/// Why an ELF file isn't converted.
#[derive(Debug, Drop, Error)]
pub enum Refusal {
    /// It can't be read as a linked program for RV32.
    #[error("the ELF file is refused: {0:?}")]
    Elf(ElfFault),
    /// Its sections make no image.
    #[error("the sections make no image: {0:?}")]
    Layout(LayoutFault),
    /// The entry `index` of relocation section `section` has a fault of its own.
    #[error("relocation {index} of section {section} is refused: {fault:?}")]
    Reloc {
        section: u32,
        index: u32,
        fault: RelocFault,
    },
    /// The recorded word at a linked address points to no byte of the image, nor to its end.
    #[error("the word at {place:#010x} points outside the image")]
    TargetOutside {
        place: u32,
    },
    /// The recorded word at a linked address has a byte in common with another relocation.
    #[error("the word at {place:#010x} meets another relocation")]
    WordOverlap {
        place: u32,
    },
    /// Out of memory, which says nothing of the file.
    #[error("out of memory")]
    Memory,
}

impl From<ElfFault> for Refusal {
    ghost use Rattle.std.specs.Prelude.{◌≡◌};
    ghost use Rattle.elf2flt_tool.specs.declared.refusal.Refusal.TheVariants.{Elf};

    ghost from_gives = { λ fault e. e ≡ Elf fault };

    fn from(fault: ElfFault) -> Refusal {
        Refusal::Elf(fault)
    }
}

impl From<LayoutFault> for Refusal {
    ghost use Rattle.std.specs.Prelude.{◌≡◌};
    ghost use Rattle.elf2flt_tool.specs.declared.refusal.Refusal.TheVariants.{Layout};

    ghost from_gives = { λ fault e. e ≡ Layout fault };

    fn from(fault: LayoutFault) -> Refusal {
        Refusal::Layout(fault)
    }
}

impl From<AllocError> for Refusal {
    ghost use Rattle.std.specs.Prelude.{◌≡◌};
    ghost use Rattle.elf2flt_tool.specs.declared.refusal.Refusal.TheVariants.{Memory};

    ghost from_gives = { λ _ e. e ≡ Memory };

    fn from(_error: AllocError) -> Refusal {
        Refusal::Memory
    }
}

impl<T: Drop> From<AllocFailed<T>> for Refusal {
    ghost use Rattle.std.specs.Prelude.{◌≡◌};
    ghost use Rattle.elf2flt_tool.specs.declared.refusal.Refusal.TheVariants.{Memory};

    ghost from_gives = { λ _ e. e ≡ Memory };

    fn from(_error: AllocFailed<T>) -> Refusal {
        Refusal::Memory
    }
}
