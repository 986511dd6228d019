//! An entry with what the indexes say of it.

ghost use Rattle.std.specs.Prelude.{◌≡◌, IfSome};
ghost use Rattle.std.specs.Option.{option_map};
ghost use Rattle.psabi_relocs.specs.Reloc.{reloc as reloc_of};
ghost use Rattle.psabi_relocs.specs.Pair.{own_high};
ghost use Rattle.psabi_relocs.specs.Firsts.{high_part};
ghost use Rattle.psabi_relocs.specs.Slot.{own_slot, slot_section};

use crate::high::HighPart;
use crate::kept::KeptSection;
use crate::reloc::Reloc;
use crate::row::Row;
use crate::slot::Slot;
use std::marker::Model;

/// An entry of a kept section as it is judged: decoded once, and each look-up made once. Contracts see the
/// file, the section's number and the entry.
#[derive(Drop)]
pub struct JudgedEntry<'a, 'b> {
    pub kept: KeptSection<'a, 'b>,
    pub reloc: Reloc,
    /// Of a low part, what it needs of its high part.
    pub high: Option<HighPart>,
    /// Of a GOT_HI20, its slot.
    pub slot: Option<Slot>,
}

impl<'a, 'b> Model for JudgedEntry<'a, 'b> {
    ghost use Rattle.psabi_relocs.specs.Judged.{Judged, IsLinked};

    ghost Value = { Judged };

    ghost view = { λ s. record { file = s.kept.file; section = s.kept.section; reloc = s.reloc } };

    ghost invariant = { λ s. IsLinked s.kept.file s.kept.section s.reloc s.high s.slot };
}

impl<'a, 'b> KeptSection<'a, 'b> {
    /// What an entry needs of its pair: other entries than low parts have none.
    fn own_high(&self, reloc: &Reloc) -> Option<HighPart>
        ensures { result ≡ option_map (λ j. high_part (reloc_of self.now.file self.now.section j)) (own_high self.now.file self.now.section reloc.now) }
    {
        match reloc.row {
            Row::Low(_) => self.pairs.high.get(reloc.value),
            _ => None,
        }
    }

    /// The slot of an entry: other entries than GOT_HI20 have none.
    fn own_slot(&self, reloc: &Reloc) -> Option<Slot>
        ensures address { option_map (λ s. s.address) result ≡ own_slot self.now.file self.now.section reloc.now }
        ensures section { IfSome result (λ s. s.section ≡ slot_section self.now.file s.address) }
    {
        match reloc.row {
            Row::GotHi20 => Some(self.slot_at(self.slot_address(reloc.place)?)),
            _ => None,
        }
    }

    /// An entry with what the indexes say of it.
    #[inline(always)]
    pub fn judged(self, reloc: Reloc) -> JudgedEntry<'a, 'b>
        ensures { result ≡ record { file = self.entry.file; section = self.entry.section; reloc = reloc } }
    {
        let high = self.own_high(&reloc);
        let slot = self.own_slot(&reloc);
        JudgedEntry {
            kept: self,
            reloc,
            high,
            slot,
        }
    }
}
