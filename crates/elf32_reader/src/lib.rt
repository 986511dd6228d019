//! Reads linked ELF32 executables for RV32: the header, the section headers, the symbol tables with their
//! names, and the relocations that a linker has left for the allocated sections (`--emit-relocs`).
//!
//! What may stand here: what the bytes of such a file say, field by field, and which file is refused. What
//! may not: what a relocation means, where a program is laid, or any output. A file is borrowed, and
//! nothing here takes memory.
#![tactic(auto)]

mod elf;
mod fault;
mod header;
mod heads;
mod names;
mod rela;
mod section;
mod symbol;

pub use elf::Elf;
pub use fault::ElfFault;
pub use heads::Heads;
pub use rela::Rela;
pub use section::Section;
pub use symbol::Symbol;
