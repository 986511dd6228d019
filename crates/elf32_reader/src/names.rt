//! Names of sections (System V ABI, ELF32, "Sections" and "String Table").

ghost use Rattle.std.specs.Prelude.{◌≡◌, ◌<◌, ◌≤◌, length, take};
ghost use Rattle.elf32_reader.specs.Header.{count_of};
ghost use Rattle.elf32_reader.specs.Names.{names_index, has_names, names_from, section_name};
ghost use Rattle.elf32_reader.specs.Tables.{HasTable};

use crate::section::{content_at, has_kind, passes, section_at};
use crate::symbol::{SHT_STRTAB, before_zero, start_before_zero};
use byte_words::half;

/// e_shstrndx: the index of the table of section names.
#[tactic(auto, unfolding(crate::specs::Names::names_index))]
fn names_index(bytes: &[u8]) -> u32
    requires { 52 ≤ length bytes.now }
    ensures { result ≡ names_index bytes.now }
{
    u32::from(half(bytes, 50))
}

/// Whether there is such a table, in the file.
#[tactic(auto, using(crate::proofs::Places::is_of_kind_below), unfolding(crate::specs::Names::has_names))]
fn has_names(bytes: &[u8]) -> bool
    requires { HasTable bytes.now }
    ensures { result ≡ has_names bytes.now }
{
    let index = names_index(bytes);
    index != 0 && has_kind(bytes, index, SHT_STRTAB) && !passes(bytes, index)
}

/// The table of section names from the index of a section's name on; nothing where there is no such table.
#[tactic(auto, using(crate::proofs::Places::names_below, crate::proofs::Places::names_fit), unfolding(crate::specs::Names::names_from))]
fn names_from(bytes: &[u8], index: u32) -> &[u8]
    requires table { HasTable bytes.now }
    requires index { index < count_of bytes.now }
    ensures { result.now ≡ names_from bytes.now index }
{
    if !has_names(bytes) {
        return &[];
    }
    let names = content_at(bytes, &section_at(bytes, names_index(bytes)));
    let at = section_at(bytes, index).name as usize;
    names.split_at(names.len().min(at)).1
}

/// The name of a section.
#[tactic(auto, unfolding(crate::specs::Names::section_name))]
pub fn section_name_at(bytes: &[u8], index: u32) -> &[u8]
    requires table { HasTable bytes.now }
    requires index { index < count_of bytes.now }
    ensures { result.now ≡ section_name bytes.now index }
{
    before_zero(names_from(bytes, index))
}

/// At most the first `limit` bytes of it. It looks at no more.
#[tactic(auto, unfolding(crate::specs::Names::section_name))]
pub fn section_name_start_at(bytes: &[u8], index: u32, limit: usize) -> &[u8]
    requires table { HasTable bytes.now }
    requires index { index < count_of bytes.now }
    ensures { result.now ≡ take limit (section_name bytes.now index) }
{
    start_before_zero(names_from(bytes, index), limit)
}
