//! What is kept of high parts for their low parts.

ghost use Rattle.std.specs.Prelude.{◌≡◌};
ghost use Rattle.psabi_relocs.specs.Firsts.{high_part};

use crate::reloc::Reloc;
use crate::row::Row;

/// What low parts need of their high part.
#[derive(Clone, Copy)]
pub enum HighPart {
    /// The distance from its place to its symbol.
    Distance(u32),
    /// It is a GOT_HI20: the distance is that from its place to its slot.
    Slot,
}

impl Reloc {
    /// What low parts need of an entry with a high part.
    pub fn high_part(&self) -> HighPart
        ensures { result ≡ high_part self.now }
    {
        match self.row {
            Row::GotHi20 => HighPart::Slot,
            _ => HighPart::Distance(self.distance()),
        }
    }
}
