//! Kept relocations with their symbols: System V ABI, ELF32, "Relocation".

ghost use Rattle.std.specs.Prelude.{◌≡◌, ◌<◌, true};
ghost use Rattle.elf32_reader.specs.Accepted.{IsAccepted};
ghost use Rattle.elf32_reader.specs.Relas.{is_kept, rela_count};
ghost use Rattle.psabi_relocs.specs.Reloc.{reloc};

use crate::class::{Class, class_of, value_at};
use crate::row::Row;
use elf32_reader::Elf;

/// An entry of a kept section, with its symbol.
#[derive(Clone, Copy)]
pub struct Reloc {
    /// The row of its type.
    pub row: Row,
    /// P: the linked address of its field.
    pub place: u32,
    /// S: the symbol's value.
    pub value: u32,
    /// What the symbol's value does when the image moves.
    pub class: Class,
    /// A: the addend modulo 2^32.
    pub addend: u32,
}

/// Entry `entry` of the kept section `section`.
#[tactic(auto, using(elf32_reader::proofs::Places::is_kept_below), unfolding(crate::specs::Reloc::reloc))]
#[inline(always)]
pub fn reloc_at(elf: &Elf<'_>, section: u32, entry: u32) -> Reloc
    requires kept { is_kept elf.now section ≡ true }
    requires entry { entry < rela_count elf.now section }
    ensures accepted { IsAccepted elf.now }
    ensures value { result ≡ reloc elf.now section entry }
{
    let rela = elf.rela(section, entry);
    let table = elf.section(section).link;
    let class = class_of(elf, table, rela.symbol);
    Reloc {
        row: Row::of(rela.kind),
        place: rela.offset,
        value: value_at(elf, table, rela.symbol, class),
        class,
        addend: rela.addend.cast_unsigned(),
    }
}
