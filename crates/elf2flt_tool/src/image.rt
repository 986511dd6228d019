//! The bytes of text and data.

ghost use Rattle.std.specs.Prelude.{◌≡◌, ◌+◌, ◌^◌, ◌<◌, ◌≤◌, true, None, All, length, map, replicate, slice_index, IfOk};
ghost use Rattle.elf32_reader.specs.Accepted.{IsAccepted};
ghost use Rattle.elf32_reader.specs.Header.{count_of};
ghost use Rattle.elf32_reader.specs.Sections.{section};
ghost use Rattle.byte_words.specs.Patches.{laid, patched, painted, bytes_below};
ghost use Rattle.bflt_format.specs.Flat.{behind_header};
ghost use Rattle.flat_layout.specs.Layout.{layout as layout_of};
ghost use Rattle.flat_layout.specs.Fault.{layout_fault};
ghost use Rattle.flat_layout.specs.Numbering.{has_bytes};
ghost use Rattle.elf2flt_tool.specs.Image.{section_patch, bare, IsLinkedFile};
ghost use Rattle.elf2flt_tool.specs.Converted.{number_patch};
ghost use Rattle.elf2flt_tool.specs.Word.{word_at, AreApart};

use crate::places::word_at;
use elf32_reader::{Elf, Section};
use flat_layout::{Layout, has_bytes};
use std::alloc::{AllocError, Global};

/// How many bytes a flat file has before the image's first one.
pub const HEADER_LEN: u32 = 64;

/// Writes bytes over an image, from a number on.
fn lay(image: &mut [u8], from: usize, bytes: &[u8])
    requires { from + length bytes.now ≤ length image.old }
    ensures { image.new ≡ laid image.old from bytes.now }
{
    image[from..from + bytes.len()].copy_from_slice(bytes);
}

/// Lays a section's bytes at their numbers. A section that isn't in the image, or has no bytes in the
/// file, lays none.
fn lay_section(elf: &Elf<'_>, layout: &Layout, index: u32, image: &mut [u8])
    requires accepted { IsAccepted elf.now }
    requires index { index < count_of elf.now }
    requires layout { layout.now ≡ layout_of elf.now }
    requires fits { has_bytes (section elf.now index) ≡ true → (section_patch elf.now index).at + (section elf.now index).size ≤ length image.old }
    ensures { image.new ≡ bytes_below (length image.old) (patched (section_patch elf.now index) (slice_index image.old)) }
{
    let section = elf.section(index);
    if has_bytes(&section) {
        lay(image, layout.off(section.addr) as usize, elf.content(index));
    }
}

/// Lays the bytes of all sections over zeros.
fn lay_sections(elf: &Elf<'_>, layout: &Layout, image: &mut [u8])
    requires no_fault { layout_fault elf.now ≡ None }
    requires layout { layout.now ≡ layout_of elf.now }
    requires zeros { image.old ≡ replicate (layout.now.text + layout.now.data_len) 0 }
    ensures { image.new ≡ bytes_below (layout.now.text + layout.now.data_len) (bare elf.now) }
{
    for index in 0..elf.sections() {
        lay_section(elf, layout, index, image);
    }
}

/// How many bytes a linked file has.
pub fn linked_len(layout: &Layout) -> usize
    requires { 64 + layout.now.text + layout.now.data_len < 2 ^ 32 }
    ensures { result ≡ 64 + layout.now.text + layout.now.data_len }
{
    (HEADER_LEN + layout.text + layout.data_len) as usize
}

/// The linked bytes of text and data, zeros where no section stands, behind room for a header.
pub fn linked_file(alloc: Global, elf: &Elf<'_>, layout: &Layout) -> Result<Vec<u8>, AllocError>
    requires no_fault { layout_fault elf.now ≡ None }
    requires layout { layout.now ≡ layout_of elf.now }
    ensures { IfOk result (λ file. IsLinkedFile elf.now file.items) }
{
    let mut file = vec![in alloc; 0; linked_len(layout)]?;
    lay_sections(elf, layout, &mut file[HEADER_LEN as usize..]);
    Ok(file)
}

/// Writes the number of each place's word over its bytes, big-endian.
fn write_numbers(layout: &Layout, places: &[u32], image: &mut [u8])
    requires inside { All (λ place. place + 4 ≤ length image.old) places.now }
    requires apart { AreApart places.now }
    ensures { image.new ≡ bytes_below (length image.old) (painted (map number_patch (map (word_at layout.now image.old) places.now)) (slice_index image.old)) }
{
    for place in places {
        let word = word_at(layout, image, *place);
        lay(image, word.place as usize, &word.target.to_be_bytes());
    }
}

/// The linked bytes with the number of each place's word there, big-endian.
pub fn with_numbers(mut file: Vec<u8>, layout: &Layout, places: &[u32]) -> Vec<u8>
    requires header { 64 ≤ length file.items }
    requires inside { All (λ place. place + 4 ≤ length (behind_header file.items)) places.now }
    requires apart { AreApart places.now }
    ensures { behind_header result.items
        ≡ bytes_below (length (behind_header file.items))
        (painted (map number_patch (map (word_at layout.now (behind_header file.items)) places.now)) (slice_index (behind_header file.items))) }
{
    write_numbers(layout, places, &mut file[HEADER_LEN as usize..]);
    file
}
