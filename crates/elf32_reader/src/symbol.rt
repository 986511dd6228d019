//! Symbol tables (System V ABI, ELF32, "Symbol Table" and "String Table").

ghost use Rattle.std.specs.Prelude.{◌≡◌, ◌<◌, ◌==◌, length, take, true, position};
ghost use Rattle.std.specs.List.{before_first};
ghost use Rattle.byte_words.specs.Search.{any_below};
ghost use Rattle.elf32_reader.specs.Header.{count_of};
ghost use Rattle.elf32_reader.specs.Sections.{section, content};
ghost use Rattle.elf32_reader.specs.Symbols.{is_symtab, symbol_count, symbol_offset, symbol, name_of};
ghost use Rattle.elf32_reader.specs.Faults.{is_nameless, has_symbol_shape, is_bad_symtab};
ghost use Rattle.elf32_reader.specs.Tables.{HasTable, HasRanges, IsSymtab};

use crate::header::section_count;
use crate::section::{content_at, has_kind, section_at};
use byte_words::{byte, half, word};

const SHT_SYMTAB: u32 = 2;

pub const SHT_STRTAB: u32 = 3;
/// The bytes of a symbol.
const SYMBOL_LEN: u32 = 16;

/// A symbol. Its fields are those of Elf32_Sym, without the prefix `st_`.
#[derive(Clone, Copy)]
pub struct Symbol {
    /// The index of its name in the string table.
    pub name: u32,
    pub value: u32,
    /// In bytes.
    pub size: u32,
    /// The type in the lower four bits, the binding in the upper ones.
    pub info: u8,
    pub other: u8,
    /// The index of its section, or one of the reserved indices.
    pub shndx: u16,
}

/// Whether `table` is the index of a symbol table.
#[tactic(auto, unfolding(crate::specs::Symbols::is_symtab))]
pub fn is_symbol_table(bytes: &[u8], table: u32) -> bool
    requires { HasTable bytes.now }
    ensures { result ≡ is_symtab bytes.now table }
{
    has_kind(bytes, table, SHT_SYMTAB)
}

#[tactic(auto, using(crate::proofs::Places::is_symtab_below), unfolding(crate::specs::Symbols::symbol_count))]
pub fn symbols_in(bytes: &[u8], table: u32) -> u32
    requires header { HasTable bytes.now }
    requires table { is_symtab bytes.now table ≡ true }
    ensures { result ≡ symbol_count bytes.now table }
{
    section_at(bytes, table).size / SYMBOL_LEN
}

/// The offset of a symbol.
#[tactic(auto, using(crate::proofs::Places::is_symtab_below), unfolding(crate::specs::Symbols::symbol_offset))]
fn symbol_start(bytes: &[u8], table: u32, index: u32) -> usize
    requires header { HasTable bytes.now }
    requires table { is_symtab bytes.now table ≡ true }
    ensures { result ≡ symbol_offset bytes.now table index }
{
    section_at(bytes, table).offset as usize + SYMBOL_LEN as usize * index as usize
}

#[tactic(auto, using(crate::proofs::Places::symbol_fits), unfolding(crate::specs::Symbols::symbol))]
pub fn symbol_of(bytes: &[u8], table: u32, index: u32) -> Symbol
    requires ranges { HasRanges bytes.now }
    requires table { is_symtab bytes.now table ≡ true }
    requires index { index < symbol_count bytes.now table }
    ensures { result ≡ symbol bytes.now table index }
{
    let at = symbol_start(bytes, table, index);
    Symbol {
        name: word(bytes, at),
        value: word(bytes, at + 4),
        size: word(bytes, at + 8),
        info: byte(bytes, at + 12),
        other: byte(bytes, at + 13),
        shndx: half(bytes, at + 14),
    }
}

/// The size of the string table that the table's link names.
#[tactic(auto, using(crate::proofs::Places::is_symtab_below, crate::proofs::Places::link_below))]
fn strings_size(bytes: &[u8], table: u32) -> u32
    requires header { HasTable bytes.now }
    requires table { is_symtab bytes.now table ≡ true }
    requires shape { has_symbol_shape bytes.now table ≡ true }
    ensures { result ≡ (section bytes.now (section bytes.now table).link).size }
{
    section_at(bytes, section_at(bytes, table).link).size
}

#[tactic(auto, using(crate::proofs::Places::is_symtab_below), unfolding(crate::specs::Faults::has_symbol_shape))]
fn has_shape(bytes: &[u8], table: u32) -> bool
    requires header { HasTable bytes.now }
    requires table { is_symtab bytes.now table ≡ true }
    ensures { result ≡ has_symbol_shape bytes.now table }
{
    let section = section_at(bytes, table);
    section.entsize == SYMBOL_LEN
        && section.size % SYMBOL_LEN == 0
        && has_kind(bytes, section.link, SHT_STRTAB)
}

#[tactic(auto, unfolding(crate::specs::Faults::is_nameless))]
fn lacks_name(bytes: &[u8], table: u32, index: u32) -> bool
    requires ranges { HasRanges bytes.now }
    requires table { is_symtab bytes.now table ≡ true }
    requires shape { has_symbol_shape bytes.now table ≡ true }
    requires index { index < symbol_count bytes.now table }
    ensures { result ≡ is_nameless bytes.now table index }
{
    strings_size(bytes, table) <= symbol_of(bytes, table, index).name
}

#[tactic(auto, using(byte_words::proofs::Searches::any_below_zero, byte_words::proofs::Searches::any_below_more))]
fn some_lacks_name(bytes: &[u8], table: u32) -> bool
    requires ranges { HasRanges bytes.now }
    requires table { is_symtab bytes.now table ≡ true }
    requires shape { has_symbol_shape bytes.now table ≡ true }
    ensures { result ≡ any_below (is_nameless bytes.now table) (symbol_count bytes.now table) }
{
    for index in 0..symbols_in(bytes, table) {
        if lacks_name(bytes, table, index) {
            return true;
        }
    }
    false
}

/// Whether a section is a symbol table of another shape, or with a symbol whose name isn't in its string table.
#[tactic(auto, unfolding(crate::specs::Faults::is_bad_symtab))]
pub fn is_bad_symtab(bytes: &[u8], table: u32) -> bool
    requires { HasRanges bytes.now }
    ensures { result ≡ is_bad_symtab bytes.now table }
{
    is_symbol_table(bytes, table) && (!has_shape(bytes, table) || some_lacks_name(bytes, table))
}

/// Whether some symbol table is misshapen, or has a symbol whose name isn't in its string table.
#[tactic(auto, using(byte_words::proofs::Searches::any_below_zero, byte_words::proofs::Searches::any_below_more))]
pub fn some_symtab_is_bad(bytes: &[u8]) -> bool
    requires { HasRanges bytes.now }
    ensures { result ≡ any_below (is_bad_symtab bytes.now) (count_of bytes.now) }
{
    for table in 0..section_count(bytes) {
        if is_bad_symtab(bytes, table) {
            return true;
        }
    }
    false
}

fn first_zero(text: &[u8]) -> Option<usize>
    ensures { result ≡ position (λ b. b == 0) text.now }
{
    text.iter().position(|b| *b == 0)
}

/// The bytes up to the first zero, or all of them.
pub fn before_zero(text: &[u8]) -> &[u8]
    ensures { result.now ≡ before_first (λ b. b == 0) text.now }
{
    match first_zero(text) {
        Some(end) => text.split_at(end).0,
        None => text,
    }
}

/// The bytes up to the first zero, at most `limit` of them. It looks at no more.
pub fn start_before_zero(text: &[u8], limit: usize) -> &[u8]
    ensures { result.now ≡ take limit (before_first (λ b. b == 0) text.now) }
{
    let (start, _) = text.split_at(text.len().min(limit));
    before_zero(start)
}

/// The string table that the table's link names.
#[tactic(auto, using(crate::proofs::Places::is_symtab_below, crate::proofs::Places::link_below, crate::proofs::Places::strings_fit, crate::proofs::Places::length_content))]
fn strings_of(bytes: &[u8], table: u32) -> &[u8]
    requires ranges { HasRanges bytes.now }
    requires table { is_symtab bytes.now table ≡ true }
    requires shape { has_symbol_shape bytes.now table ≡ true }
    ensures value { result.now ≡ content bytes.now (section bytes.now (section bytes.now table).link) }
    ensures len { length result.now ≡ (section bytes.now (section bytes.now table).link).size }
{
    let strings = section_at(bytes, section_at(bytes, table).link);
    content_at(bytes, &strings)
}

#[tactic(auto, unfolding(crate::specs::Symbols::name_of))]
pub fn name_in(bytes: &[u8], table: u32, index: u32) -> &[u8]
    requires ranges { HasRanges bytes.now }
    requires table { is_symtab bytes.now table ≡ true }
    requires symtab { IsSymtab bytes.now table }
    requires index { index < symbol_count bytes.now table }
    ensures { result.now ≡ name_of bytes.now table index }
{
    let at = symbol_of(bytes, table, index).name as usize;
    before_zero(strings_of(bytes, table).split_at(at).1)
}

#[tactic(auto, unfolding(crate::specs::Symbols::name_of))]
pub fn name_start_in(bytes: &[u8], table: u32, index: u32, limit: usize) -> &[u8]
    requires ranges { HasRanges bytes.now }
    requires table { is_symtab bytes.now table ≡ true }
    requires symtab { IsSymtab bytes.now table }
    requires index { index < symbol_count bytes.now table }
    ensures { result.now ≡ take limit (name_of bytes.now table index) }
{
    let at = symbol_of(bytes, table, index).name as usize;
    start_before_zero(strings_of(bytes, table).split_at(at).1, limit)
}
