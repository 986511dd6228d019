//! One reason why a file isn't converted.

use elf32_reader::ElfFault;
use flat_layout::LayoutFault;
use psabi_relocs::RelocFault;

/// A reason why an ELF file isn't converted, as `Refusal` has it, with where it stands. A number that a row doesn't need is 0.
#[derive(Clone, Copy, Debug, Drop)]
pub enum Fault {
    /// It can't be read: a row on sections with the section that it holds of.
    Elf {
        fault: ElfFault,
        section: u32,
        other: u32,
    },
    /// Its sections make no image: a row on sections with the section that it holds of, and for `LayoutFault::Overlap` the
    /// first that it meets.
    Layout {
        fault: LayoutFault,
        section: u32,
        other: u32,
    },
    /// The entry `index` of relocation section `section` has a fault of its own.
    Reloc {
        section: u32,
        index: u32,
        fault: RelocFault,
    },
    /// The word that this entry records, at a linked address, points to no byte of the image, nor to its end.
    TargetOutside {
        place: u32,
        section: u32,
        index: u32,
    },
    /// The word that this entry records, at a linked address, has a byte in common with another relocation.
    WordOverlap {
        place: u32,
        section: u32,
        index: u32,
    },
}
