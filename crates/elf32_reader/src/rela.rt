//! Relocation sections (System V ABI, ELF32, "Relocation").

ghost use Rattle.std.specs.Prelude.{◌≡◌, ◌<◌, ◌&&◌, nat_le, true};
ghost use Rattle.byte_words.specs.Search.{any_below};
ghost use Rattle.elf32_reader.specs.Header.{count_of};
ghost use Rattle.elf32_reader.specs.Sections.{section};
ghost use Rattle.elf32_reader.specs.Relas.{is_static_relocation, is_kept, rela_count, entry_offset, rela};
ghost use Rattle.elf32_reader.specs.Faults.{is_symbolless, has_rela_shape, is_bad_rela};
ghost use Rattle.elf32_reader.specs.Tables.{HasTable, HasRanges};

use crate::header::section_count;
use crate::section::{Section, section_at};
use crate::symbol::{is_symbol_table, symbols_in};
use byte_words::word;

const SHT_RELA: u32 = 4;

const SHT_REL: u32 = 9;
/// The bytes of an entry.
const RELA_LEN: u32 = 12;

/// An entry of a relocation section with addends, Elf32_Rela.
#[derive(Clone, Copy)]
pub struct Rela {
    /// r_offset: the linked address of its field.
    pub offset: u32,
    /// The index of its symbol, in the symbol table that the section's link names.
    pub symbol: u32,
    /// The relocation's type.
    pub kind: u8,
    pub addend: i32,
}

#[tactic(auto, unfolding(crate::specs::Relas::is_static_relocation))]
fn is_for_linker(section: &Section) -> bool
    ensures { result ≡ is_static_relocation section.now }
{
    (section.kind == SHT_RELA || section.kind == SHT_REL) && !section.is_allocated()
}

/// Whether a section is a kept relocation section: it has relocations that a linker left for an
/// allocated section.
#[tactic(auto, unfolding(crate::specs::Relas::is_kept))]
pub fn is_kept_at(bytes: &[u8], index: u32) -> bool
    requires header { HasTable bytes.now }
    requires index { index < count_of bytes.now }
    ensures { result ≡ is_kept bytes.now index }
{
    let section = section_at(bytes, index);
    is_for_linker(&section)
        && section.info < section_count(bytes)
        && section_at(bytes, section.info).is_allocated()
}

#[tactic(auto, using(crate::proofs::Places::is_kept_below), unfolding(crate::specs::Relas::rela_count))]
pub fn relas_in(bytes: &[u8], index: u32) -> u32
    requires header { HasTable bytes.now }
    requires kept { is_kept bytes.now index ≡ true }
    ensures { result ≡ rela_count bytes.now index }
{
    section_at(bytes, index).size / RELA_LEN
}

/// The offset of an entry.
#[tactic(auto, using(crate::proofs::Places::is_kept_below), unfolding(crate::specs::Relas::entry_offset))]
fn entry_start(bytes: &[u8], index: u32, entry: u32) -> usize
    requires header { HasTable bytes.now }
    requires kept { is_kept bytes.now index ≡ true }
    ensures { result ≡ entry_offset bytes.now index entry }
{
    section_at(bytes, index).offset as usize + RELA_LEN as usize * entry as usize
}

#[tactic(auto, using(crate::proofs::Places::rela_fits), unfolding(crate::specs::Relas::rela, crate::specs::Relas::addend_word))]
pub fn rela_of(bytes: &[u8], index: u32, entry: u32) -> Rela
    requires ranges { HasRanges bytes.now }
    requires kept { is_kept bytes.now index ≡ true }
    requires entry { entry < rela_count bytes.now index }
    ensures { result ≡ rela bytes.now index entry }
{
    let at = entry_start(bytes, index, entry);
    let info = word(bytes, at + 4);
    Rela {
        offset: word(bytes, at),
        symbol: info / 256,
        kind: (info % 256) as u8,
        addend: word(bytes, at + 8).cast_signed(),
    }
}

#[tactic(auto, using(crate::proofs::Places::is_kept_below), unfolding(crate::specs::Faults::has_rela_shape))]
fn has_shape(bytes: &[u8], index: u32) -> bool
    requires header { HasTable bytes.now }
    requires kept { is_kept bytes.now index ≡ true }
    ensures { result ≡ has_rela_shape bytes.now index }
{
    let section = section_at(bytes, index);
    section.kind == SHT_RELA
        && section.entsize == RELA_LEN
        && section.size % RELA_LEN == 0
        && is_symbol_table(bytes, section.link)
}

#[tactic(auto, using(crate::proofs::Places::is_kept_below, crate::proofs::Places::link_is_symtab), unfolding(crate::specs::Faults::is_symbolless))]
fn lacks_symbol(bytes: &[u8], index: u32, entry: u32) -> bool
    requires ranges { HasRanges bytes.now }
    requires kept { is_kept bytes.now index ≡ true }
    requires shape { has_rela_shape bytes.now index ≡ true }
    requires entry { entry < rela_count bytes.now index }
    ensures { result ≡ is_symbolless bytes.now index entry }
{
    symbols_in(bytes, section_at(bytes, index).link) <= rela_of(bytes, index, entry).symbol
}

#[tactic(auto, using(byte_words::proofs::Searches::any_below_zero, byte_words::proofs::Searches::any_below_more))]
fn some_lacks_symbol(bytes: &[u8], index: u32) -> bool
    requires ranges { HasRanges bytes.now }
    requires kept { is_kept bytes.now index ≡ true }
    requires shape { has_rela_shape bytes.now index ≡ true }
    ensures { result ≡ any_below (is_symbolless bytes.now index) (rela_count bytes.now index) }
{
    for entry in 0..relas_in(bytes, index) {
        if lacks_symbol(bytes, index, entry) {
            return true;
        }
    }
    false
}

fn names_no_section(bytes: &[u8], index: u32) -> bool
    requires header { HasTable bytes.now }
    requires index { index < count_of bytes.now }
    ensures { let s = section bytes.now index in
        result ≡ (is_static_relocation s && nat_le (count_of bytes.now) s.info) }
{
    let section = section_at(bytes, index);
    is_for_linker(&section) && section_count(bytes) <= section.info
}

/// Whether a section has relocations that are refused: those of no section, or kept ones of another shape or without a symbol.
#[tactic(auto, unfolding(crate::specs::Faults::is_bad_rela))]
pub fn is_bad_rela(bytes: &[u8], index: u32) -> bool
    requires ranges { HasRanges bytes.now }
    requires index { index < count_of bytes.now }
    ensures { result ≡ is_bad_rela bytes.now index }
{
    names_no_section(bytes, index)
        || (is_kept_at(bytes, index)
            && (!has_shape(bytes, index) || some_lacks_symbol(bytes, index)))
}

/// Whether some relocation section is refused.
#[tactic(auto, using(byte_words::proofs::Searches::any_below_zero, byte_words::proofs::Searches::any_below_more))]
pub fn some_rela_is_bad(bytes: &[u8]) -> bool
    requires { HasRanges bytes.now }
    ensures { result ≡ any_below (is_bad_rela bytes.now) (count_of bytes.now) }
{
    for index in 0..section_count(bytes) {
        if is_bad_rela(bytes, index) {
            return true;
        }
    }
    false
}
