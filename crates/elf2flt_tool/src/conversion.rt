//! The conversion.

ghost use Rattle.std.specs.Prelude.{◌≡◌, ℕ, ◌≤◌, ◌⊎◌, List, Some, None, MatchResult};
ghost use Rattle.elf32_reader.specs.Accepted.{IsAccepted};
ghost use Rattle.flat_layout.specs.Fault.{layout_fault};
ghost use Rattle.flat_layout.specs.Layout.{layout as layout_of};
ghost use Rattle.elf2flt_tool.specs.Fault.{address_of, fault, relocs_fault};
ghost use Rattle.elf2flt_tool.specs.Converted.{converted, flat};
ghost use Rattle.elf2flt_tool.specs.Walk.{IsPlaced, IsPrepared};

use crate::collect::cover_all;
use crate::image::{HEADER_LEN, linked_file, linked_len, with_numbers};
use crate::met::lowest_overlap;
use crate::placed::Placed;
use crate::places::places_of;
use crate::refusal::Refusal;
use crate::sliding::{slid_file, slides_of};
use crate::target::lowest_outside;
use crate::walk::Walk;
use bflt_format::Flat;
use elf32_reader::Elf;
use flat_layout::Layout;
use std::alloc::Global;

/// The stack is a multiple of this many bytes.
const STACK_UNIT: u32 = 16;

/// The linked address of the byte with a number.
pub fn address_of(layout: &Layout, number: u32) -> u32
    ensures { result ≡ address_of layout.now number }
{
    number.wrapping_add(layout.v0)
}

/// Where a file records words, if none of its kept relocations has a fault. Of the walk no more than this is left: it takes
/// more memory than the image.
fn find_places(alloc: Global, elf: &Elf<'_>, layout: &Layout) -> Result<Placed, Refusal>
    requires accepted { IsAccepted elf.now }
    requires no_fault { layout_fault elf.now ≡ None }
    requires layout { layout.now ≡ layout_of elf.now }
    ensures { MatchResult result
        (λ placed. IsPlaced elf.now placed)
        (λ refusal. (refusal ≡ Refusal.Memory) ⊎ (relocs_fault elf.now ≡ Some refusal)) }
{
    let walk = Walk::of(alloc, elf, layout)?;
    let cover = cover_all(alloc, &walk)?;
    let places = places_of(alloc, &cover.words)?;
    let met = lowest_overlap(alloc, &cover, &walk, &places)?;
    Ok(Placed { places, met })
}

/// Whether each recorded word points into the image and none meets another relocation.
fn test_words(layout: &Layout, linked: &[u8], placed: &Placed) -> Result<(), Refusal>
    requires { (e : List ℕ) × IsPrepared e layout.now linked.now placed.now }
    ensures { (e : List ℕ) → IsPrepared e layout.now linked.now placed.now →
        MatchResult result (λ _. fault e ≡ None) (λ refusal. fault e ≡ Some refusal) }
{
    let image = &linked[HEADER_LEN as usize..];
    if let Some(number) = lowest_outside(layout, image, &placed.places) {
        return Err(Refusal::TargetOutside {
            place: address_of(layout, number),
        });
    }
    if let Some(number) = placed.met {
        return Err(Refusal::WordOverlap {
            place: address_of(layout, number),
        });
    }
    Ok(())
}

/// The flat file of a file that is linked so. It is written in the linked file's place.
fn flat_of(layout: &Layout, linked: Vec<u8>, placed: Placed, stack: u32) -> Result<Flat, Refusal>
    requires prepared { (e : List ℕ) × IsPrepared e layout.now linked.items placed }
    requires stack_limit { stack ≤ 1048576 }
    ensures { (e : List ℕ) → IsPrepared e layout.now linked.items placed →
        MatchResult result (λ flat. (fault e ≡ None) × (flat ≡ converted e stack)) (λ refusal. fault e ≡ Some refusal) }
{
    test_words(layout, &linked, &placed)?;
    let file = with_numbers(linked, layout, &placed.places);
    let stack = stack.div_ceil(STACK_UNIT) * STACK_UNIT;
    let entry = HEADER_LEN + layout.entry;
    Ok(Flat::of(
        entry,
        layout.text,
        layout.data_len,
        layout.bss,
        stack,
        file,
        placed.places,
    ))
}

/// The flat file of a linked ELF file, with `stack` bytes of stack, rounded up to 16.
///
/// # Errors
///
/// The first fault of the file, in the order of the variants of `Refusal`, or `Memory`.
pub fn flat_file(alloc: Global, bytes: &[u8], stack: u32) -> Result<Flat, Refusal>
    requires some_stack { 16 ≤ stack }
    requires stack_limit { stack ≤ 1048576 }
    ensures { MatchResult result
        (λ file. (fault bytes.now ≡ None) × (file ≡ converted bytes.now stack))
        (λ refusal. (refusal ≡ Refusal.Memory) ⊎ (fault bytes.now ≡ Some refusal)) }
{
    let elf = Elf::read(bytes)?;
    let layout = Layout::of(&elf)?;
    let placed = find_places(alloc, &elf, &layout)?;
    let linked = linked_file(alloc, &elf, &layout)?;
    flat_of(&layout, linked, placed, stack)
}

/// The same, in the memory that the ELF file takes, where the order of its sections lets its bytes move there.
///
/// # Errors
///
/// As `flat_file`.
pub fn flat_file_in_place(alloc: Global, bytes: Vec<u8>, stack: u32) -> Result<Flat, Refusal>
    requires some_stack { 16 ≤ stack }
    requires stack_limit { stack ≤ 1048576 }
    ensures { MatchResult result
        (λ file. (fault bytes.items ≡ None) × (file ≡ converted bytes.items stack))
        (λ refusal. (refusal ≡ Refusal.Memory) ⊎ (fault bytes.items ≡ Some refusal)) }
{
    let elf = Elf::read(&bytes)?;
    let layout = Layout::of(&elf)?;
    let placed = find_places(alloc, &elf, &layout)?;
    let linked = match slides_of(alloc, &elf, &layout)? {
        Some(slides) => slid_file(bytes, &slides, linked_len(&layout))?,
        None => linked_file(alloc, &elf, &layout)?,
    };
    flat_of(&layout, linked, placed, stack)
}

/// The bytes of that flat file.
///
/// # Errors
///
/// As `flat_file`.
pub fn convert(alloc: Global, bytes: &[u8], stack: u32) -> Result<Vec<u8>, Refusal>
    requires some_stack { 16 ≤ stack }
    requires stack_limit { stack ≤ 1048576 }
    ensures { MatchResult result
        (λ out. (fault bytes.now ≡ None) × (out.items ≡ flat bytes.now stack))
        (λ refusal. (refusal ≡ Refusal.Memory) ⊎ (fault bytes.now ≡ Some refusal)) }
{
    let file = flat_file(alloc, bytes, stack)?;
    Ok(file.into_bytes()?)
}
