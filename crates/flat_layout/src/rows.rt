//! The rows of the fault table of each section by itself.

ghost use Rattle.std.specs.Prelude.{◌≡◌, ◌<◌, ◌≤◌};
ghost use Rattle.byte_words.specs.Search.{any_below};
ghost use Rattle.elf32_reader.specs.Header.{count_of};
ghost use Rattle.flat_layout.specs.Rows.{has_numbers, ends_image, is_too_high, row_holds};

use crate::fault::{
    ends_too_high, has_overlap, has_sections, is_dynamic, is_tls, is_too_large, meets_below,
    some_ends_too_high,
};
use crate::numbering::{end_of, highest, is_laid_out};
use elf32_reader::Elf;

/// The number of the row `LayoutFault::TooLarge`.
const TOO_LARGE: u32 = 2;
/// That of the row `LayoutFault::Overlap`.
const OVERLAP: u32 = 3;
/// That of the row `LayoutFault::Dynamic`.
const DYNAMIC: u32 = 4;

/// Whether no row up to `LayoutFault::Overlap` holds: the bytes of the sections have numbers.
#[tactic(auto, unfolding(crate::specs::Rows::has_numbers))]
pub fn has_numbers(elf: &Elf<'_>) -> bool
    ensures { result ≡ has_numbers elf.now }
{
    has_sections(elf) && !is_too_large(elf) && !has_overlap(elf)
}

/// Whether the image ends where a section ends.
fn ends_image(elf: &Elf<'_>, index: u32) -> bool
    requires { index < count_of elf.now }
    ensures { result ≡ ends_image elf.now index }
{
    let section = elf.section(index);
    is_laid_out(&section) && end_of(&section) == highest(elf)
}

/// Whether it ends where a section before `index` ends.
#[tactic(auto, using(byte_words::proofs::Searches::any_below_zero, byte_words::proofs::Searches::any_below_more))]
fn earlier_ends_image(elf: &Elf<'_>, index: u32) -> bool
    requires { index < count_of elf.now }
    ensures { result ≡ any_below (ends_image elf.now) index }
{
    for other in 0..index {
        if ends_image(elf, other) {
            return true;
        }
    }
    false
}

/// Whether a section is one for which the image is too large: it ends above 2^32, or where none does it is the first one
/// that ends the image.
#[tactic(auto, unfolding(crate::specs::Rows::is_too_high))]
fn is_too_high(elf: &Elf<'_>, index: u32) -> bool
    requires { index < count_of elf.now }
    ensures { result ≡ is_too_high elf.now index }
{
    if some_ends_too_high(elf) {
        return ends_too_high(&elf.section(index));
    }
    ends_image(elf, index) && is_too_large(elf) && !earlier_ends_image(elf, index)
}

/// Whether a row of `LayoutFault` from 2 to 5 holds of a section.
#[tactic(auto, unfolding(crate::specs::Rows::row_holds))]
pub fn holds(elf: &Elf<'_>, row: u32, index: u32) -> bool
    requires from { 2 ≤ row }
    requires to { row ≤ 5 }
    requires index { index < count_of elf.now }
    ensures { result ≡ row_holds row elf.now index }
{
    match row {
        TOO_LARGE => is_too_high(elf, index),
        OVERLAP => meets_below(elf, index),
        DYNAMIC => is_dynamic(&elf.section(index)),
        _ => is_tls(&elf.section(index)),
    }
}
