//! What an accepted relocation asks of a loader.

ghost use Rattle.std.specs.Prelude.{◌≡◌, ℕ, List};
ghost use Rattle.psabi_relocs.specs.Effect.{effect_of};

use crate::judged::JudgedEntry;
use crate::reloc::Reloc;
use crate::row::Row;

/// What a loader has to do for a relocation when the image moves. Addresses are the linked ones.
#[derive(Clone, Copy)]
pub enum Effect {
    /// Nothing: its bytes are right at every base.
    Still,
    /// The word at `place` points to `target`.
    Word { place: u32, target: u32 },
    /// The GOT slot at `place` points to `target`.
    Slot { place: u32, target: u32 },
}

impl Reloc {
    /// What a loader has to do for a pointer.
    pub fn pointer_effect(&self) -> Effect
        requires { self.now.row ≡ Row.Pointer }
        ensures { (file : List ℕ) (section : ℕ) → result ≡ effect_of file section self.now }
    {
        if self.class.is_moving() {
            Effect::Word {
                place: self.place,
                target: self.absolute(),
            }
        } else {
            Effect::Still
        }
    }
}

impl JudgedEntry<'_, '_> {
    /// What a loader has to do for it, if it is accepted.
    pub fn effect(&self) -> Effect
        ensures { result ≡ effect_of self.now.file self.now.section self.now.reloc }
    {
        let reloc = &self.reloc;
        if !reloc.class.is_moving() {
            return Effect::Still;
        }
        match (reloc.row, self.slot) {
            (Row::Pointer, _) => Effect::Word {
                place: reloc.place,
                target: reloc.absolute(),
            },
            (Row::GotHi20, Some(slot)) => Effect::Slot {
                place: slot.address,
                target: reloc.value,
            },
            _ => Effect::Still,
        }
    }
}
