//! The faults by their words: the number of a row, and its name.

ghost use Rattle.std.specs.Prelude.{◌≡◌};
ghost use Rattle.fault_texts.specs.Words.{elf_fault_words, layout_fault_words, reloc_fault_words};

use elf32_reader::ElfFault;
use flat_layout::LayoutFault;
use psabi_relocs::RelocFault;

/// A fault of an ELF file.
pub fn elf_fault_words(fault: ElfFault) -> &'static str
    ensures { result.now ≡ elf_fault_words fault }
{
    match fault {
        ElfFault::Short => "1 Short",
        ElfFault::Magic => "2 Magic",
        ElfFault::Class => "3 Class",
        ElfFault::Order => "4 Order",
        ElfFault::Version => "5 Version",
        ElfFault::FileType => "6 FileType",
        ElfFault::Machine => "7 Machine",
        ElfFault::Flags => "8 Flags",
        ElfFault::SectionTable => "9 SectionTable",
        ElfFault::SectionRange => "10 SectionRange",
        ElfFault::SymbolRange => "11 SymbolRange",
        ElfFault::RelaShape => "12 RelaShape",
    }
}

/// A fault of its layout.
pub fn layout_fault_words(fault: LayoutFault) -> &'static str
    ensures { result.now ≡ layout_fault_words fault }
{
    match fault {
        LayoutFault::NoSections => "1 NoSections",
        LayoutFault::TooLarge => "2 TooLarge",
        LayoutFault::Overlap => "3 Overlap",
        LayoutFault::Dynamic => "4 Dynamic",
        LayoutFault::Tls => "5 Tls",
        LayoutFault::EntryOutside => "6 EntryOutside",
    }
}

/// A fault of a kept relocation.
pub fn reloc_fault_words(fault: RelocFault) -> &'static str
    ensures { result.now ≡ reloc_fault_words fault }
{
    match fault {
        RelocFault::UnknownType => "1 UnknownType",
        RelocFault::BadSymbol => "2 BadSymbol",
        RelocFault::Undefined => "3 Undefined",
        RelocFault::PlaceOutside => "4 PlaceOutside",
        RelocFault::AbsoluteCode => "5 AbsoluteCode",
        RelocFault::WeakPcrel => "6 WeakPcrel",
        RelocFault::AbsPcrel => "7 AbsPcrel",
        RelocFault::LoneLow => "8 LoneLow",
        RelocFault::Unpaired => "9 Unpaired",
        RelocFault::FieldMismatch => "10 FieldMismatch",
    }
}
