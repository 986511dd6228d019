//! A kept section with the indexes by which its entries are judged.

ghost use Rattle.std.specs.Prelude.{◌≡◌, ◌<◌, true};
ghost use Rattle.elf32_reader.specs.Relas.{is_kept, rela_count};
ghost use Rattle.flat_layout.specs.Rows.{has_numbers};
ghost use Rattle.psabi_relocs.specs.Reloc.{reloc, target_section};
ghost use Rattle.psabi_relocs.specs.Bytes.{holds, word_in};

use crate::bytes::{holds, linked_word};
use crate::pairs::Pairs;
use crate::reloc::{Reloc, reloc_at};
use crate::stored::StoredSections;
use elf32_reader::Elf;
use std::marker::Model;

/// A kept section, its index and that of the stored sections. Contracts see the file and the section's number.
#[derive(Drop)]
pub struct KeptSection<'a, 'b> {
    pub elf: &'a Elf<'b>,
    pub stored: &'a StoredSections,
    pub pairs: &'a Pairs,
    pub section: u32,
}

impl<'a, 'b> Model for KeptSection<'a, 'b> {
    ghost use Rattle.psabi_relocs.specs.Judged.{SectionOfFile, IsIndexed};

    ghost Value = { SectionOfFile };

    ghost view = { λ s. record { file = s.elf.now; section = s.section } };

    ghost invariant = { λ s. IsIndexed s.elf.now s.section s.stored.now s.pairs.now };
}

impl KeptSection<'_, '_> {
    /// An entry by its number.
    pub fn reloc(&self, entry: u32) -> Reloc
        requires { entry < rela_count self.now.file self.now.section }
        ensures { result ≡ reloc self.now.file self.now.section entry }
    {
        reloc_at(self.elf, self.section, entry)
    }

    /// Whether `len` bytes from an address on stand in the section that the entries apply to.
    #[tactic(auto, using(elf32_reader::proofs::Places::is_kept_below, elf32_reader::proofs::Places::is_kept_info))]
    pub fn holds(&self, place: u32, len: u32) -> bool
        ensures { result ≡ holds (target_section self.now.file self.now.section) place len }
    {
        let target = self.elf.section(self.section).info;
        holds(&self.elf.section(target), place, len)
    }

    /// The linked word at an address of the section that the entries apply to.
    #[tactic(auto, using(elf32_reader::proofs::Places::is_kept_below, elf32_reader::proofs::Places::is_kept_info, elf32_reader::proofs::Places::is_kept_allocated))]
    pub fn word(&self, place: u32) -> u32
        requires { holds (target_section self.now.file self.now.section) place 4 ≡ true }
        ensures kept { is_kept self.now.file self.now.section ≡ true }
        ensures numbers { has_numbers self.now.file ≡ true }
        ensures word { result ≡ word_in self.now.file (target_section self.now.file self.now.section) place }
    {
        linked_word(self.elf, self.elf.section(self.section).info, place)
    }
}
