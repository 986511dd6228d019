//! Why a file is refused.

/// What is wrong with a file: the first row that holds, in this order.
#[derive(Clone, Copy, Debug, PartialEq, Eq)]
pub enum ElfFault {
    /// The file is shorter than a file header, which has 52 bytes.
    Short,
    /// The first four bytes aren't 7f 45 4c 46.
    Magic,
    /// It isn't of the class ELFCLASS32.
    Class,
    /// It isn't little-endian.
    Order,
    /// EI_VERSION or e_version isn't 1.
    Version,
    /// e_type isn't ET_EXEC.
    FileType,
    /// e_machine isn't EM_RISCV.
    Machine,
    /// e_flags names compressed code, a float ABI or RVE.
    Flags,
    /// The section headers aren't of 40 bytes, aren't from 1 to 4096, or pass the file's end.
    SectionTable,
    /// The content of a section passes the file's end.
    SectionRange,
    /// A symbol table is misshapen, has no string table, or has a symbol whose name isn't in it.
    SymbolRange,
    /// A relocation section that isn't allocated names no section, or a kept one is misshapen, has no
    /// symbol table, or has an entry whose symbol isn't in it.
    RelaShape,
}
