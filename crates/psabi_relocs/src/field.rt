//! The values of fields, and whether the linked bytes hold them.

ghost use Rattle.std.specs.Prelude.{◌≡◌, not, true, false, Some};
ghost use Rattle.std.specs.List.{list_all};
ghost use Rattle.std.specs.Option.{option_map};
ghost use Rattle.psabi_relocs.specs.Row.{is_low};
ghost use Rattle.psabi_relocs.specs.Reloc.{target_section};
ghost use Rattle.psabi_relocs.specs.Bytes.{holds, word_in};
ghost use Rattle.psabi_relocs.specs.Pair.{high_of};
ghost use Rattle.psabi_relocs.specs.Slot.{slot_of, slot_section};
ghost use Rattle.psabi_relocs.specs.Shape.{has_value};
ghost use Rattle.psabi_relocs.specs.Field.{own_ends, slot_ends, pair_ends, absolute, relative, own_fields, holds_value, mismatches, is_mismatch};
ghost use Rattle.psabi_relocs.specs.Fault.{is_place_outside};

use crate::bytes::WORD_LEN;
use crate::high::HighPart;
use crate::judged::JudgedEntry;
use crate::kept::KeptSection;
use crate::reloc::Reloc;
use crate::row::{Row, Shape};
use crate::slot::Slot;

impl Reloc {
    /// S + A modulo 2^32.
    #[tactic(auto, unfolding(crate::specs::Field::absolute))]
    pub(crate) fn absolute(&self) -> u32
        ensures { result ≡ absolute 0 self.now }
    {
        self.value.wrapping_add(self.addend)
    }

    /// S + A - P modulo 2^32.
    #[tactic(auto, unfolding(crate::specs::Field::relative))]
    pub(crate) fn distance(&self) -> u32
        ensures { result ≡ relative 0 (own_ends self.now) }
    {
        self.value
            .wrapping_add(self.addend)
            .wrapping_sub(self.place)
    }
}

/// G - P modulo 2^32.
#[tactic(auto, unfolding(crate::specs::Field::relative))]
fn slot_distance(place: u32, slot: u32) -> u32
    ensures { result ≡ relative 0 (slot_ends place slot) }
{
    slot.wrapping_sub(place)
}

impl KeptSection<'_, '_> {
    /// The distance of a GOT_HI20 at a place. None if it has no slot.
    fn got_distance(&self, place: u32) -> Option<u32>
        ensures { result ≡ option_map (λ slot. relative 0 (slot_ends place slot)) (slot_of self.now.file self.now.section place) }
    {
        let slot = self.slot_address(place)?;
        Some(slot_distance(place, slot))
    }

    /// Whether a field doesn't hold its value.
    fn is_wrong(&self, shape: Shape, place: u32, value: u32) -> bool
        requires { holds (target_section self.now.file self.now.section) place 4 ≡ true }
        ensures { result ≡ not (has_value shape (word_in self.now.file (target_section self.now.file self.now.section) place) value) }
    {
        !shape.has_value(self.word(place), value)
    }

    /// Whether AUIPC and JALR of an entry don't hold its distance.
    #[tactic(auto, using(crate::proofs::Fields::holds_first, crate::proofs::Fields::holds_second, crate::proofs::Fields::second_fits), unfolding(crate::specs::Field::holds_value))]
    fn is_call_wrong(&self, reloc: &Reloc) -> bool
        requires { holds (target_section self.now.file self.now.section) reloc.now.place 8 ≡ true }
        ensures { result ≡ not (list_all (holds_value self.now.file (target_section self.now.file self.now.section)) (own_fields Row.Call 0 reloc.now (own_ends reloc.now))) }
    {
        let value = reloc.distance();
        let auipc = self.word(reloc.place);
        let jalr = self.word(reloc.place + WORD_LEN);
        !Shape::High.has_value(auipc, value) || !Shape::LowI.has_value(jalr, value)
    }

    /// Whether a GOT_HI20 doesn't hold its distance or has an addend, or its slot doesn't hold S.
    #[tactic(auto, unfolding(crate::specs::Field::holds_value, crate::specs::Slot::is_slot_wrong))]
    fn is_got_wrong(&self, reloc: &Reloc, slot: Slot) -> bool
        requires row { reloc.now.row ≡ Row.GotHi20 }
        requires holds { holds (target_section self.now.file self.now.section) reloc.now.place 4 ≡ true }
        requires section { slot.section ≡ slot_section self.now.file slot.address }
        ensures { result ≡ mismatches self.now.file (target_section self.now.file self.now.section) reloc.now (Some (slot_ends reloc.now.place slot.address)) }
    {
        self.is_wrong(
            Shape::High,
            reloc.place,
            slot_distance(reloc.place, slot.address),
        ) || reloc.addend != 0
            || slot.word(self.elf) != reloc.value
    }
}

impl JudgedEntry<'_, '_> {
    /// The distance of a low part's pair. None if it has none.
    fn pair_distance(&self) -> Option<u32>
        requires { is_low self.now.reloc.row ≡ true }
        ensures { result ≡ option_map (relative 0) (pair_ends self.now.file self.now.section (high_of self.now.file self.now.section self.now.reloc.value)) }
    {
        match self.high? {
            HighPart::Distance(distance) => Some(distance),
            HighPart::Slot => self.kept.got_distance(self.reloc.value),
        }
    }

    /// Whether a field at P or the slot doesn't hold its value, or a GOT_HI20 has an addend.
    #[tactic(auto, using(crate::proofs::Fields::inside_holds), unfolding(crate::specs::Field::is_mismatch, crate::specs::Field::holds_value, crate::specs::Field::ends_of, crate::specs::Field::high_ends, crate::specs::Slot::is_slot_wrong))]
    pub fn is_mismatch(&self) -> bool
        requires { is_place_outside self.now.file self.now.section self.now.reloc ≡ false }
        ensures { result ≡ is_mismatch self.now.file self.now.section self.now.reloc }
    {
        let reloc = &self.reloc;
        let kept = &self.kept;
        match reloc.row {
            Row::Pointer => kept.is_wrong(Shape::Word, reloc.place, reloc.absolute()),
            Row::Absolute(shape) => kept.is_wrong(shape, reloc.place, reloc.absolute()),
            Row::Relative(shape) => kept.is_wrong(shape, reloc.place, reloc.distance()),
            Row::Call => kept.is_call_wrong(reloc),
            Row::GotHi20 => match self.slot {
                Some(slot) => kept.is_got_wrong(reloc, slot),
                None => false,
            },
            Row::Low(shape) => match self.pair_distance() {
                Some(value) => kept.is_wrong(shape, reloc.place, value),
                None => false,
            },
            _ => false,
        }
    }
}
