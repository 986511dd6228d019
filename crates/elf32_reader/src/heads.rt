//! The section headers of a file that may be refused for what they say.

ghost use Rattle.std.specs.Prelude.{◌≡◌, ◌<◌, ◌≤◌, take, IfSome};
ghost use Rattle.std.specs.Option.{is_some, is_none};
ghost use Rattle.elf32_reader.specs.Header.{count_of};
ghost use Rattle.elf32_reader.specs.Sections.{section};
ghost use Rattle.elf32_reader.specs.Faults.{header_fault};
ghost use Rattle.elf32_reader.specs.Heads.{row_holds, IsInFile};
ghost use Rattle.elf32_reader.specs.Names.{section_name};

use crate::header::{header_fault_of, section_count};
use crate::names::{section_name_at, section_name_start_at};
use crate::rela::is_bad_rela;
use crate::section::{Section, passes, section_at};
use crate::symbol::is_bad_symtab;
use std::marker::Model;

/// The number of the row `ElfFault::SectionRange`.
const SECTION_RANGE: u32 = 10;
/// That of the row `ElfFault::SymbolRange`.
const SYMBOL_RANGE: u32 = 11;

/// A file whose header has no fault, which borrows its bytes: its section headers can be read. Contracts see it as the
/// list of these bytes.
#[derive(Drop)]
pub struct Heads<'a> {
    bytes: &'a [u8],
}

impl<'a> Model for Heads<'a> {
    ghost use Rattle.std.specs.Prelude.{ℕ, List};
    ghost use Rattle.elf32_reader.specs.Tables.{HasTable};

    ghost Value = { List ℕ };

    ghost view = { λ s. s.bytes.now };

    ghost invariant = { λ s. HasTable s.bytes.now };
}

impl<'a> Heads<'a> {
    /// The section headers of a file; none where its header has a fault.
    pub fn of(bytes: &'a [u8]) -> Option<Heads<'a>>
        ensures there { is_some result ≡ is_none (header_fault bytes.now) }
        ensures value { IfSome result (λ heads. heads ≡ bytes.now) }
    {
        match header_fault_of(bytes) {
            Some(_) => None,
            None => Some(Heads { bytes }),
        }
    }

    /// The number of sections.
    pub fn sections(&self) -> u32
        ensures { result ≡ count_of self.now }
    {
        section_count(self.bytes)
    }

    /// A section header. Index 0 is one like any other.
    pub fn section(&self, index: u32) -> Section
        requires { index < count_of self.now }
        ensures { result ≡ section self.now index }
    {
        section_at(self.bytes, index)
    }

    /// The name of a section, without the zero that ends it; empty where the file has no names of sections.
    pub fn section_name(&self, index: u32) -> &[u8]
        requires { index < count_of self.now }
        ensures { result.now ≡ section_name self.now index }
    {
        section_name_at(self.bytes, index)
    }

    /// At most the first `limit` bytes of a section's name. However long the name is, no more are looked at.
    pub fn section_name_start(&self, index: u32, limit: usize) -> &[u8]
        requires { index < count_of self.now }
        ensures { result.now ≡ take limit (section_name self.now index) }
    {
        section_name_start_at(self.bytes, index, limit)
    }

    /// Whether a row of `ElfFault` from 10 to 12 holds of a section.
    #[tactic(auto, unfolding(crate::specs::Heads::row_holds))]
    pub fn holds(&self, row: u32, index: u32) -> bool
        requires from { 10 ≤ row }
        requires to { row ≤ 12 }
        requires in_file { IsInFile row self.now }
        requires index { index < count_of self.now }
        ensures { result ≡ row_holds row self.now index }
    {
        if row == SECTION_RANGE {
            return passes(self.bytes, index);
        }
        if row == SYMBOL_RANGE {
            return is_bad_symtab(self.bytes, index);
        }
        is_bad_rela(self.bytes, index)
    }
}
