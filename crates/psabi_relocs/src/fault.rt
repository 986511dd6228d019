//! Why a relocation isn't accepted.

ghost use Rattle.std.specs.Prelude.{◌≡◌, ◌&&◌, not, true, false, None, if◌then◌else◌};
ghost use Rattle.elf32_reader.specs.Relas.{rela_count};
ghost use Rattle.psabi_relocs.specs.Row.{is_mark, is_absolute, is_relative};
ghost use Rattle.psabi_relocs.specs.Class.{is_moving};
ghost use Rattle.psabi_relocs.specs.Reloc.{target_section};
ghost use Rattle.psabi_relocs.specs.Bytes.{holds};
ghost use Rattle.psabi_relocs.specs.Group.{sum_below, is_balanced};
ghost use Rattle.psabi_relocs.specs.Field.{is_mismatch};
ghost use Rattle.psabi_relocs.specs.Fault.{is_weak, is_fixed, is_place_outside, is_lone_low, is_unpaired, first_fault};

use crate::bytes::WORD_LEN;
use crate::class::Class;
use crate::judged::JudgedEntry;
use crate::kept::KeptSection;
use crate::pairs::sums_at;
use crate::reloc::Reloc;
use crate::row::{Row, Width};

/// What is wrong with a kept relocation: the first row that holds, in this order.
#[derive(Clone, Copy, Debug, PartialEq, Eq)]
pub enum RelocFault {
    /// Its type isn't in the table.
    UnknownType,
    /// Its symbol belongs to a section that isn't loaded.
    BadSymbol,
    /// No file defines its symbol.
    Undefined,
    /// Its field doesn't lie in the stored section that it applies to, or its GOT slot in none.
    PlaceOutside,
    /// An instruction holds the address of a symbol that moves (HI20, LO12_I, LO12_S).
    AbsoluteCode,
    /// A distance to a weak symbol that no file defines.
    WeakPcrel,
    /// A distance to a symbol that stands still.
    AbsPcrel,
    /// A low part without its high part, with a symbol that stands still, or with an addend.
    LoneLow,
    /// A GOT_HI20 without a low part, or an entry of a group that adds and subtracts unlike numbers of symbols
    /// that move.
    Unpaired,
    /// A field or a slot doesn't hold its value, or a GOT_HI20 has an addend.
    FieldMismatch,
}

impl Reloc {
    /// Whether an instruction has the address of a symbol that moves.
    fn is_absolute_code(&self) -> bool
        ensures { result ≡ (is_absolute self.now.row && is_moving self.now.class) }
    {
        matches!(self.row, Row::Absolute(_)) && self.class.is_moving()
    }

    /// Whether its value is a distance to its symbol.
    fn is_relative(&self) -> bool
        ensures { result ≡ is_relative self.now.row }
    {
        matches!(self.row, Row::Relative(_) | Row::Call)
    }

    /// Whether a distance is measured to a weak symbol that no file defines.
    fn is_weak_distance(&self) -> bool
        ensures { result ≡ (is_relative self.now.row && is_weak self.now.class) }
    {
        self.is_relative() && matches!(self.class, Class::Weak)
    }

    /// Whether a distance is measured to a symbol that stands still.
    fn is_fixed_distance(&self) -> bool
        ensures { result ≡ (is_relative self.now.row && is_fixed self.now.class) }
    {
        self.is_relative() && matches!(self.class, Class::Fixed)
    }
}

impl KeptSection<'_, '_> {
    /// Whether the group at a place and of a width adds and subtracts unlike numbers of symbols that move.
    fn is_unbalanced(&self, width: Width, place: u32) -> bool
        ensures { result ≡ not (is_balanced (sum_below self.now.file self.now.section place width (rela_count self.now.file self.now.section))) }
    {
        let sum = sums_at(&self.pairs.sums, place).sum(width);
        sum.plus != sum.minus
    }
}

impl KeptSection<'_, '_> {
    /// Whether the word of a pointer, which is in its section, doesn't hold its value.
    #[tactic(auto, unfolding(crate::specs::Field::is_mismatch, crate::specs::Field::holds_value, crate::specs::Field::ends_of))]
    fn is_pointer_wrong(&self, reloc: &Reloc) -> bool
        requires row { reloc.now.row ≡ Row.Pointer }
        requires holds { holds (target_section self.now.file self.now.section) reloc.now.place 4 ≡ true }
        ensures { result ≡ is_mismatch self.now.file self.now.section reloc.now }
    {
        self.word(reloc.place) != reloc.absolute()
    }

    /// The first row of `RelocFault` that holds of a pointer. It needs none of the indexes.
    #[tactic(auto, unfolding(crate::specs::Fault::first_fault, crate::specs::Fault::is_place_outside, crate::specs::Fault::is_lone_low, crate::specs::Fault::is_unpaired))]
    #[inline(always)]
    pub fn pointer_fault(&self, reloc: &Reloc) -> Option<RelocFault>
        requires { reloc.now.row ≡ Row.Pointer }
        ensures { result ≡ first_fault self.now.file self.now.section reloc.now }
    {
        if matches!(reloc.class, Class::Bad) {
            return Some(RelocFault::BadSymbol);
        }
        if matches!(reloc.class, Class::Undefined) {
            return Some(RelocFault::Undefined);
        }
        if !self.holds(reloc.place, WORD_LEN) {
            return Some(RelocFault::PlaceOutside);
        }
        if self.is_pointer_wrong(reloc) {
            return Some(RelocFault::FieldMismatch);
        }
        None
    }
}

impl JudgedEntry<'_, '_> {
    /// Whether its field isn't in the section that it applies to, or its slot in none.
    #[tactic(auto, unfolding(crate::specs::Fault::is_place_outside))]
    fn is_place_outside(&self) -> bool
        ensures { result ≡ is_place_outside self.now.file self.now.section self.now.reloc }
    {
        let inside = self
            .kept
            .holds(self.reloc.place, self.reloc.row.field_len());
        let slot_inside = match self.slot {
            Some(slot) => slot.section.is_some(),
            None => true,
        };
        !inside || !slot_inside
    }

    /// Whether it is a low part without its high part, with a symbol that stands still, or with an addend.
    #[tactic(auto, unfolding(crate::specs::Fault::is_lone_low))]
    fn is_lone_low(&self) -> bool
        ensures { result ≡ is_lone_low self.now.file self.now.section self.now.reloc }
    {
        matches!(self.reloc.row, Row::Low(_))
            && (matches!(self.reloc.class, Class::Fixed | Class::Weak)
                || self.reloc.addend != 0
                || self.high.is_none())
    }

    /// Whether it is a GOT_HI20 that no low part names, or an entry of an unbalanced group.
    #[tactic(auto, unfolding(crate::specs::Fault::is_unpaired))]
    fn is_unpaired(&self) -> bool
        requires { is_place_outside self.now.file self.now.section self.now.reloc ≡ false }
        ensures { result ≡ is_unpaired self.now.file self.now.section self.now.reloc }
    {
        match self.reloc.row {
            Row::GotHi20 => self.slot.is_none(),
            Row::Group(width, _) => self.kept.is_unbalanced(width, self.reloc.place),
            _ => false,
        }
    }

    /// The first row of `RelocFault` that holds, whether it is a mark or not.
    #[tactic(auto, unfolding(crate::specs::Fault::first_fault))]
    fn first_fault(&self) -> Option<RelocFault>
        ensures { result ≡ first_fault self.now.file self.now.section self.now.reloc }
    {
        let reloc = &self.reloc;
        if matches!(reloc.row, Row::Unknown) {
            return Some(RelocFault::UnknownType);
        }
        if matches!(reloc.class, Class::Bad) {
            return Some(RelocFault::BadSymbol);
        }
        if matches!(reloc.class, Class::Undefined) {
            return Some(RelocFault::Undefined);
        }
        if self.is_place_outside() {
            return Some(RelocFault::PlaceOutside);
        }
        if reloc.is_absolute_code() {
            return Some(RelocFault::AbsoluteCode);
        }
        if reloc.is_weak_distance() {
            return Some(RelocFault::WeakPcrel);
        }
        if reloc.is_fixed_distance() {
            return Some(RelocFault::AbsPcrel);
        }
        if self.is_lone_low() {
            return Some(RelocFault::LoneLow);
        }
        if self.is_unpaired() {
            return Some(RelocFault::Unpaired);
        }
        if self.is_mismatch() {
            return Some(RelocFault::FieldMismatch);
        }
        None
    }

    /// The first row of `RelocFault` that holds. A mark has none.
    pub fn fault(&self) -> Option<RelocFault>
        ensures { result ≡ (if is_mark self.now.reloc.row then None else first_fault self.now.file self.now.section self.now.reloc) }
    {
        match self.reloc.row {
            Row::Mark => None,
            _ => self.first_fault(),
        }
    }
}
