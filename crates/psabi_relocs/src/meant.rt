//! Which symbol a relocation means.

ghost use Rattle.std.specs.Prelude.{◌≡◌, ◌<◌, true};
ghost use Rattle.elf32_reader.specs.Symbols.{is_symtab, symbol_count, symbol};
ghost use Rattle.psabi_relocs.specs.Around.{is_anchor, reached, meant};
ghost use Rattle.psabi_relocs.specs.Spots.{IsAroundOf};

use crate::around::{Around, has_source_name};
use elf32_reader::Elf;

/// A symbol, and how far behind its value a place is.
#[derive(Clone, Copy, Debug)]
pub struct Meant {
    /// The index of the symbol in its table.
    pub symbol: u32,
    /// In bytes.
    pub distance: i64,
}

/// Whether a symbol stands for a place of a section, and has no name of the source.
#[tactic(auto, unfolding(crate::specs::Around::is_anchor))]
fn is_anchor(elf: &Elf<'_>, table: u32, index: u32) -> bool
    requires table { is_symtab elf.now table ≡ true }
    requires index { index < symbol_count elf.now table }
    ensures { result ≡ is_anchor elf.now table index }
{
    if index == 0 || has_source_name(elf, table, index) {
        return false;
    }
    let section = elf.symbol(table, index).shndx;
    section != 0 && u32::from(section) < elf.sections()
}

/// The place that a symbol and an addend give.
#[tactic(auto, unfolding(crate::specs::Around::reached))]
fn reached_place(elf: &Elf<'_>, table: u32, index: u32, addend: i32) -> u32
    requires table { is_symtab elf.now table ≡ true }
    requires index { index < symbol_count elf.now table }
    ensures { result ≡ reached elf.now table index addend }
{
    elf.symbol(table, index)
        .value
        .wrapping_add(addend.cast_unsigned())
}

/// What a symbol with an addend means, where `around` is the index of its table: a section's own symbol and a compiler's anchor
/// mean the variable that they reach.
#[tactic(auto, unfolding(crate::specs::Around::meant))]
pub fn meant_by(elf: &Elf<'_>, table: u32, around: &Around, index: u32, addend: i32) -> Meant
    requires table { is_symtab elf.now table ≡ true }
    requires around { IsAroundOf elf.now table around.now }
    requires index { index < symbol_count elf.now table }
    ensures { result ≡ meant elf.now table index addend }
{
    if is_anchor(elf, table, index) {
        let section = elf.symbol(table, index).shndx;
        let reached = reached_place(elf, table, index, addend);
        if let Some(symbol) = around.find(u32::from(section), reached) {
            return Meant {
                symbol,
                distance: i64::from(reached) - i64::from(elf.symbol(table, symbol).value),
            };
        }
    }
    Meant {
        symbol: index,
        distance: i64::from(addend),
    }
}
