//! How a word has a value: RISC-V ELF psABI, "Relocations".

ghost use Rattle.std.specs.Prelude.{◌≡◌};
ghost use Rattle.psabi_relocs.specs.Shape.{high_part, low_part, has_value};

use crate::row::Shape;
use rv32im_table::{imm_b, imm_i, imm_j, imm_s, imm_u};

/// The value rounded to a multiple of 4096, so that a low part from -2048 to 2047 completes it.
fn high_part(value: u32) -> u32
    ensures { result ≡ high_part value }
{
    value.wrapping_add(0x800) & 0xffff_f000
}

/// What the high part leaves: the low 12 bits, their sign extended.
fn low_part(value: u32) -> u32
    ensures { result ≡ low_part value }
{
    let low = value & 0xfff;
    if low < 0x800 { low } else { low + 0xffff_f000 }
}

impl Shape {
    /// Whether `word` has `value` in its field.
    pub fn has_value(self, word: u32, value: u32) -> bool
        ensures { result ≡ has_value self word value }
    {
        match self {
            Shape::Word => word == value,
            Shape::High => imm_u(word) == high_part(value),
            Shape::LowI => imm_i(word) == low_part(value),
            Shape::LowS => imm_s(word) == low_part(value),
            Shape::Branch => imm_b(word) == value,
            Shape::Jump => imm_j(word) == value,
        }
    }
}
