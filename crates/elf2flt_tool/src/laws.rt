//! Laws over the definitions. They hold for all files, and no code runs.

ghost use Rattle.elf2flt_tool.specs.Laws.{DifferThoughAgreed, FirstFaultLaw, FlatLaw, ImageLaw, LinuxLaw, NothingElseLaw, SameRecordersLaw, SameWordsLaw};

/// The flat file of an accepted ELF file has, loaded at any base, the image of the ELF file there.
pub fn image_law()
    ensures { ImageLaw }
{}

/// A flat file that the converter writes has no fault.
pub fn flat_law()
    ensures { FlatLaw }
{}

/// Linux's own loader, by the definition `linux` of `linux_loader`, takes that file at each page whose run ends in memory, and
/// leaves the image of the ELF file behind the header; the program starts at the ELF file's entry.
pub fn linux_law()
    ensures { LinuxLaw }
{}

/// The first of all faults is the first fault: what `convert` refuses a file for is the first of what `faults` lists.
pub fn first_fault_law()
    ensures { FirstFaultLaw }
{}

/// The flat file goes by the entry, the laid-out sections and the kept relocations, and by nothing else: not by the order of
/// sections and entries, by names, symbols' numbers, or what isn't loaded. In one of two such files no two sections of
/// relocations may have high parts at one place (`relocs`); without that it doesn't hold (`needed`). Of the relocations it goes
/// only by what those that record a word need (`recorders`), and so by the places of the words (`words`).
pub fn nothing_else_law()
    ensures relocs { NothingElseLaw }
    ensures needed { DifferThoughAgreed }
    ensures recorders { SameRecordersLaw }
    ensures words { SameWordsLaw }
{}
