//! The block of memory that a program needs.

ghost use Rattle.std.specs.Prelude.{◌≡◌, ◌*◌, ◌≤◌};
ghost use Rattle.flat_loader.specs.Original.{flat_original};
ghost use Rattle.flat_loader.specs.Original as original;

use bflt_format::Flat;
use phys_mem::PAGE;

/// The bytes of the header, which stands at the start of the block.
pub const HEADER_LEN: u32 = 64;

/// The bytes of the image: text, data and bss.
pub fn image_len(flat: &Flat) -> u32
    ensures value { result ≡ (flat_original flat.now).size }
    ensures small { result ≤ 16777216 }
{
    flat.text() + flat.data_len() + flat.bss()
}

/// The bytes of the stack: what the file asks for, up to the next multiple of 16.
pub fn stack_len(flat: &Flat) -> u32
    ensures value { result ≡ original.stack_len (flat_original flat.now) }
    ensures small { result ≤ 1048576 }
{
    (flat.stack() + 15) / 16 * 16
}

/// The pages of a program's block: header, image and stack.
#[tactic(auto, unfolding(crate::specs::Original::block_pages))]
pub fn block_pages(flat: &Flat) -> u32
    ensures value { result ≡ original.block_pages (flat_original flat.now) }
    ensures some { 1 ≤ result }
    ensures few { result ≤ 4353 }
{
    (HEADER_LEN + image_len(flat) + stack_len(flat) + 4095) / PAGE
}

/// The bytes of these pages.
pub fn block_len(flat: &Flat) -> u32
    ensures value { result ≡ original.block_len (flat_original flat.now) }
    ensures few { result ≤ 4096 * 4353 }
{
    PAGE * block_pages(flat)
}
