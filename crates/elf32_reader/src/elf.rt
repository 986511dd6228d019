//! A file that was read.

ghost use Rattle.std.specs.Prelude.{◌≡◌, ℕ, ◌<◌, List, true, take, None, Some, MatchResult};
ghost use Rattle.std.specs.Int.{w32, cast_unsigned};
ghost use Rattle.elf32_reader.specs.Header.{entry_of, count_of};
ghost use Rattle.elf32_reader.specs.Sections.{section, has_content, content};
ghost use Rattle.elf32_reader.specs.Symbols.{is_symtab, symbol_count, symbol, name_of};
ghost use Rattle.elf32_reader.specs.Names.{section_name};
ghost use Rattle.elf32_reader.specs.Relas.{is_kept, rela_count, addend_word, rela};
ghost use Rattle.elf32_reader.specs.Faults.{section_fault, elf_fault};
ghost use Rattle.elf32_reader.specs.Accepted.{IsAccepted};
ghost use Rattle.elf32_reader.specs.Tables.{HasTable};

use crate::fault::ElfFault;
use crate::header::{entry_address, header_fault_of, section_count};
use crate::names::{section_name_at, section_name_start_at};
use crate::rela::{Rela, is_kept_at, rela_of, relas_in, some_rela_is_bad};
use crate::section::{Section, content_at, section_at, some_passes};
use crate::symbol::{Symbol, name_in, name_start_in, some_symtab_is_bad, symbol_of, symbols_in};
use std::marker::Model;

/// An ELF file that was read, which borrows its bytes. Contracts see it as the list of these bytes.
#[derive(Drop)]
pub struct Elf<'a> {
    bytes: &'a [u8],
}

impl<'a> Model for Elf<'a> {
    ghost use Rattle.std.specs.Prelude.{ℕ, List};
    ghost use Rattle.elf32_reader.specs.Tables.{IsElf};

    ghost Value = { List ℕ };

    ghost view = { λ s. s.bytes.now };

    ghost invariant = { λ s. IsElf s.bytes.now };
}

/// The first fault of the sections of a file whose header has none.
#[tactic(auto, unfolding(crate::specs::Faults::section_fault))]
fn section_fault_of(bytes: &[u8]) -> Option<ElfFault>
    requires { HasTable bytes.now }
    ensures { result ≡ section_fault bytes.now }
{
    if some_passes(bytes) {
        return Some(ElfFault::SectionRange);
    }
    if some_symtab_is_bad(bytes) {
        return Some(ElfFault::SymbolRange);
    }
    if some_rela_is_bad(bytes) {
        return Some(ElfFault::RelaShape);
    }
    None
}

#[tactic(auto, unfolding(crate::specs::Faults::elf_fault))]
fn fault_of(bytes: &[u8]) -> Option<ElfFault>
    ensures { result ≡ elf_fault bytes.now }
{
    match header_fault_of(bytes) {
        Some(fault) => Some(fault),
        None => section_fault_of(bytes),
    }
}

impl<'a> Elf<'a> {
    /// Reads a file, or says its first fault. It takes no memory.
    pub fn read(bytes: &'a [u8]) -> Result<Elf<'a>, ElfFault>
        ensures { MatchResult result
            (λ elf. (elf_fault bytes.now ≡ None) × (elf ≡ bytes.now))
            (λ fault. elf_fault bytes.now ≡ Some fault) }
    {
        match fault_of(bytes) {
            Some(fault) => Err(fault),
            None => Ok(Elf { bytes }),
        }
    }

    /// The address where the program begins.
    pub fn entry(&self) -> u32
        ensures accepted { IsAccepted self.now }
        ensures entry { result ≡ entry_of self.now }
    {
        entry_address(self.bytes)
    }

    /// The number of sections, from 1 to 4096.
    pub fn sections(&self) -> u32
        ensures accepted { IsAccepted self.now }
        ensures count { result ≡ count_of self.now }
    {
        section_count(self.bytes)
    }

    /// A section header. Index 0 is one like any other.
    pub fn section(&self, index: u32) -> Section
        requires { index < count_of self.now }
        ensures { result ≡ section self.now index }
    {
        section_at(self.bytes, index)
    }

    /// The name of a section, without the zero that ends it; empty where the file has no names of sections. It is
    /// searched anew at each call.
    pub fn section_name(&self, index: u32) -> &[u8]
        requires { index < count_of self.now }
        ensures { result.now ≡ section_name self.now index }
    {
        section_name_at(self.bytes, index)
    }

    /// At most the first `limit` bytes of a section's name. However long the name is, no more are looked at.
    pub fn section_name_start(&self, index: u32, limit: usize) -> &[u8]
        requires { index < count_of self.now }
        ensures { result.now ≡ take limit (section_name self.now index) }
    {
        section_name_start_at(self.bytes, index, limit)
    }

    /// The bytes of a section that is neither NULL nor NOBITS.
    pub fn content(&self, index: u32) -> &[u8]
        requires index { index < count_of self.now }
        requires content { has_content (section self.now index) ≡ true }
        ensures { result.now ≡ content self.now (section self.now index) }
    {
        content_at(self.bytes, &section_at(self.bytes, index))
    }

    /// Whether a section is a kept relocation section: it isn't allocated, is of type RELA, and has
    /// relocations for an allocated section.
    pub fn kept(&self, index: u32) -> bool
        requires { index < count_of self.now }
        ensures { result ≡ is_kept self.now index }
    {
        is_kept_at(self.bytes, index)
    }

    /// The number of symbols of a symbol table, given by its section index.
    pub fn symbols(&self, table: u32) -> u32
        requires { is_symtab self.now table ≡ true }
        ensures { result ≡ symbol_count self.now table }
    {
        symbols_in(self.bytes, table)
    }

    /// A symbol of a symbol table.
    pub fn symbol(&self, table: u32, index: u32) -> Symbol
        requires table { is_symtab self.now table ≡ true }
        requires index { index < symbol_count self.now table }
        ensures { result ≡ symbol self.now table index }
    {
        symbol_of(self.bytes, table, index)
    }

    /// The name of a symbol, without the zero that ends it. It is searched anew at each call.
    pub fn name(&self, table: u32, index: u32) -> &[u8]
        requires table { is_symtab self.now table ≡ true }
        requires index { index < symbol_count self.now table }
        ensures { result.now ≡ name_of self.now table index }
    {
        name_in(self.bytes, table, index)
    }

    /// At most the first `limit` bytes of a symbol's name. However long the name is, no more are looked at.
    pub fn name_start(&self, table: u32, index: u32, limit: usize) -> &[u8]
        requires table { is_symtab self.now table ≡ true }
        requires index { index < symbol_count self.now table }
        ensures { result.now ≡ take limit (name_of self.now table index) }
    {
        name_start_in(self.bytes, table, index, limit)
    }

    /// The number of entries of a kept relocation section.
    pub fn relas(&self, index: u32) -> u32
        requires { is_kept self.now index ≡ true }
        ensures accepted { IsAccepted self.now }
        ensures count { result ≡ rela_count self.now index }
    {
        relas_in(self.bytes, index)
    }

    /// Entry `entry` of a kept relocation section.
    pub fn rela(&self, index: u32, entry: u32) -> Rela
        requires kept { is_kept self.now index ≡ true }
        requires entry { entry < rela_count self.now index }
        ensures accepted { IsAccepted self.now }
        ensures value { result ≡ rela self.now index entry }
        ensures addend { cast_unsigned w32 result.addend ≡ addend_word self.now index entry }
        // Its symbol is one of the table that the section's link names.
        ensures table { is_symtab self.now (section self.now index).link ≡ true }
        ensures symbol { result.symbol < symbol_count self.now (section self.now index).link }
    {
        rela_of(self.bytes, index, entry)
    }
}
