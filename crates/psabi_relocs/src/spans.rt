//! The linked bytes that a relocation has.

ghost use Rattle.std.specs.Prelude.{◌≡◌, ℕ, List};
ghost use Rattle.psabi_relocs.specs.Effect.{own_span, spans_of, listed};

use crate::bytes::WORD_LEN;
use crate::judged::JudgedEntry;
use crate::reloc::Reloc;
use crate::row::Row;

/// Bytes of the linked file, from the address `place` on.
#[derive(Clone, Copy)]
pub struct Span {
    pub place: u32,
    pub len: u32,
    /// They are a word that moves with the image.
    pub recorded: bool,
}

/// The bytes that one relocation has.
#[derive(Clone, Copy)]
pub struct Spans {
    /// Those of its field. A mark has none, so their number is 0.
    pub own: Span,
    /// Those of its slot, of a GOT_HI20 whose slot is found.
    pub slot: Option<Span>,
}

impl Reloc {
    fn own_span(&self) -> Span
        ensures { result ≡ own_span self.now }
    {
        Span {
            place: self.place,
            len: self.row.field_len(),
            recorded: matches!(self.row, Row::Pointer) && self.class.is_moving(),
        }
    }
}

impl Reloc {
    /// The bytes that a pointer has.
    pub fn pointer_spans(&self) -> Spans
        requires { self.now.row ≡ Row.Pointer }
        ensures { (file : List ℕ) (section : ℕ) → listed result ≡ spans_of file section self.now }
    {
        Spans {
            own: Span {
                place: self.place,
                len: WORD_LEN,
                recorded: self.class.is_moving(),
            },
            slot: None,
        }
    }
}

impl JudgedEntry<'_, '_> {
    /// The bytes that it has.
    pub fn spans(&self) -> Spans
        ensures { listed result ≡ spans_of self.now.file self.now.section self.now.reloc }
    {
        let recorded = self.reloc.class.is_moving();
        Spans {
            own: self.reloc.own_span(),
            slot: self.slot.map(|slot| Span {
                place: slot.address,
                len: WORD_LEN,
                recorded,
            }),
        }
    }
}
