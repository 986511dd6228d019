//! The slots of the global offset table.

ghost use Rattle.std.specs.Prelude.{◌≡◌, ◌<◌, true};
ghost use Rattle.elf32_reader.specs.Accepted.{IsAccepted};
ghost use Rattle.elf32_reader.specs.Relas.{rela_count};
ghost use Rattle.psabi_relocs.specs.Reloc.{reloc, target_section};
ghost use Rattle.psabi_relocs.specs.Bytes.{holds, word_in};
ghost use Rattle.psabi_relocs.specs.Slot.{low_immediate, slot_of, slot_section, slot_word};

use crate::bytes::{WORD_LEN, linked_word};
use crate::kept::KeptSection;
use crate::row::{Row, Shape};
use elf32_reader::Elf;
use rv32im_table::{imm_i, imm_s, imm_u};

/// The slot of a GOT_HI20.
#[derive(Clone, Copy)]
pub struct Slot {
    /// G: its address.
    pub address: u32,
    /// The stored section of the image that holds its four bytes.
    pub section: Option<u32>,
}

/// The immediate of a low part in its word.
fn low_immediate(row: Row, word: u32) -> u32
    ensures { result ≡ low_immediate row word }
{
    match row {
        Row::Low(Shape::LowS) => imm_s(word),
        _ => imm_i(word),
    }
}

impl KeptSection<'_, '_> {
    /// The immediate of the low part that is entry `entry`. Its symbol isn't looked at.
    #[tactic(auto, unfolding(crate::specs::Reloc::reloc))]
    fn low_part(&self, entry: u32) -> u32
        requires entry { entry < rela_count self.now.file self.now.section }
        requires holds { holds (target_section self.now.file self.now.section) (reloc self.now.file self.now.section entry).place 4 ≡ true }
        ensures { result ≡ low_immediate (reloc self.now.file self.now.section entry).row
            (word_in self.now.file (target_section self.now.file self.now.section) (reloc self.now.file self.now.section entry).place) }
    {
        let rela = self.elf.rela(self.section, entry);
        low_immediate(Row::of(rela.kind), self.word(rela.offset))
    }

    /// G: the address of the slot of a GOT_HI20 at `place`. None if its instruction isn't in its section, or
    /// no low part names it.
    #[tactic(auto, using(crate::proofs::Partners::low_of_below, crate::proofs::Partners::low_of_holds), unfolding(crate::specs::Slot::slot_of, crate::specs::Slot::slot_by))]
    pub fn slot_address(&self, place: u32) -> Option<u32>
        ensures { result ≡ slot_of self.now.file self.now.section place }
    {
        if !self.holds(place, WORD_LEN) {
            return None;
        }
        let low = self.low_part(self.pairs.low.get(place)?);
        let high = imm_u(self.word(place));
        Some(place.wrapping_add(high).wrapping_add(low))
    }

    /// The slot at an address.
    pub fn slot_at(&self, address: u32) -> Slot
        ensures address { result.address ≡ address }
        ensures section { result.section ≡ slot_section self.now.file address }
    {
        Slot {
            address,
            section: self.stored.slot_section(self.elf, address),
        }
    }
}

impl Slot {
    /// Its linked word, or 0 where no section holds it.
    #[tactic(auto, using(crate::proofs::StoredSlots::slot_section_below, crate::proofs::StoredSlots::slot_section_allocated, crate::proofs::StoredSlots::slot_section_holds), unfolding(crate::specs::Slot::slot_word))]
    pub fn word(&self, elf: &Elf<'_>) -> u32
        requires accepted { IsAccepted elf.now }
        requires section { self.now.section ≡ slot_section elf.now self.now.address }
        ensures { result ≡ slot_word elf.now self.now.address }
    {
        match self.section {
            Some(index) => linked_word(elf, index, self.address),
            None => 0,
        }
    }
}
