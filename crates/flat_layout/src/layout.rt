//! The sizes of an image, and where its program begins.

ghost use Rattle.std.specs.Prelude.{◌≡◌, true, MatchResult, IfSome};
ghost use Rattle.std.specs.Option.{is_some};
ghost use Rattle.flat_layout.specs.Fault.{layout_fault};
ghost use Rattle.flat_layout.specs.Layout.{layout, off};
ghost use Rattle.flat_layout.specs.Rows.{has_numbers};

use crate::fault::{LayoutFault, layout_fault};
use crate::numbering::{ADDRESS_END, distance, highest, raised_start, stored_end, written_from};
use crate::rows::has_numbers;
use elf32_reader::Elf;

/// Text ends at a multiple of it.
const TEXT_ALIGNMENT: u64 = 32;
/// How far V0 + 64 lies behind V0.
const RAISED_BY: u64 = 64;

/// The layout of an image. Its bytes have the numbers from 0 up; text, data and bss follow each other.
#[derive(Clone, Copy)]
pub struct Layout {
    /// V0, the linked address of the byte with number 0, modulo 2^32. It is the greatest multiple of 64 strictly
    /// below all sections, so that no byte of a section has the number 0.
    pub v0: u32,
    /// T, the bytes of text. A multiple of 32.
    pub text: u32,
    /// D, the bytes of data.
    pub data_len: u32,
    /// B, the bytes of bss.
    pub bss: u32,
    /// The number of the byte at e_entry.
    pub entry: u32,
}

impl Layout {
    /// The layout of a program's sections: of those that take memory and aren't empty.
    ///
    /// # Errors
    ///
    /// The first row of `LayoutFault` that holds. It takes no memory.
    #[tactic(auto, using(crate::proofs::Facts::clear_numbers))]
    pub fn of(elf: &Elf<'_>) -> Result<Layout, LayoutFault>
        ensures { MatchResult result (λ l. (layout_fault elf.now ≡ None) × (l ≡ layout elf.now)) (λ f. layout_fault elf.now ≡ Some f) }
    {
        match layout_fault(elf) {
            Some(fault) => Err(fault),
            None => Ok(lay_out(elf)),
        }
    }

    /// The layout of sections whose bytes have numbers: none where a row of `LayoutFault` up to 3 holds, whether a later
    /// one does or not. It takes no memory.
    pub fn numbers(elf: &Elf<'_>) -> Option<Layout>
        ensures there { is_some result ≡ has_numbers elf.now }
        ensures value { IfSome result (λ l. l ≡ layout elf.now) }
    {
        if has_numbers(elf) {
            Some(lay_out(elf))
        } else {
            None
        }
    }

    /// The number of the byte at the linked address `a`. It wraps around: an address outside the image has a
    /// number that no byte has.
    #[tactic(auto, unfolding(crate::specs::Layout::off))]
    pub fn off(&self, a: u32) -> u32
        ensures { result ≡ off self.now a }
    {
        a.wrapping_sub(self.v0)
    }
}

#[tactic(auto, unfolding(crate::specs::Layout::layout, crate::specs::Layout::text_of, crate::specs::Numbering::start_of, crate::specs::Numbering::distance))]
fn lay_out(elf: &Elf<'_>) -> Layout
    requires { has_numbers elf.now ≡ true }
    ensures { result ≡ layout elf.now }
{
    let raised = raised_start(elf);
    let stored = stored_end(elf, raised);
    let text = written_from(elf, raised, stored) / TEXT_ALIGNMENT * TEXT_ALIGNMENT;
    let v0 = ((raised + ADDRESS_END - RAISED_BY) % ADDRESS_END) as u32;
    Layout {
        v0,
        text: text as u32,
        data_len: (stored - text) as u32,
        bss: (distance(raised, highest(elf)) - stored) as u32,
        entry: elf.entry().wrapping_sub(v0),
    }
}
