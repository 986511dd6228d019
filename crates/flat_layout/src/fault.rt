//! Which sections make no image.

ghost use Rattle.std.specs.Prelude.{◌≡◌, ◌<◌};
ghost use Rattle.elf32_reader.specs.Header.{count_of};
ghost use Rattle.elf32_reader.specs.Sections.{section};
ghost use Rattle.byte_words.specs.Search.{any_below};
ghost use Rattle.flat_layout.specs.Fault.{has_sections, ends_too_high, some_ends_too_high, is_too_large, meets, meets_below, has_overlap, is_dynamic, has_dynamic, is_tls, has_tls, holds_code, is_entry_outside, layout_fault};

use crate::numbering::{
    ADDRESS_END, distance, end_of, has_bytes, highest, is_executable, is_laid_out, raised_start,
};
use elf32_reader::{Elf, Section};

const SHT_RELA: u32 = 4;

const SHT_DYNAMIC: u32 = 6;

const SHT_REL: u32 = 9;

const SHT_DYNSYM: u32 = 11;

const SHF_TLS: u32 = 0x400;

/// The most bytes of an image.
const MAX_SIZE: u64 = 16 << 20;
/// The bytes of an instruction.
const INSTRUCTION_LEN: u64 = 4;

/// Why the sections of an ELF file make no image: the first row that holds, in this order.
#[derive(Clone, Copy, Debug, PartialEq, Eq)]
pub enum LayoutFault {
    /// No section has a place in the image.
    NoSections,
    /// A section ends above 2^32, or the image would have more than 16,777,216 bytes.
    TooLarge,
    /// Two sections have a common byte.
    Overlap,
    /// A section is of a type for a dynamic linker: SHT_DYNAMIC, SHT_DYNSYM, SHT_RELA or SHT_REL.
    Dynamic,
    /// A section is thread-local: it has the flag SHF_TLS.
    Tls,
    /// e_entry isn't a multiple of 4, or its four bytes don't lie in one executable section whose bytes stand
    /// in the file.
    EntryOutside,
}

/// Whether some section has a place in the image.
#[tactic(auto, using(byte_words::proofs::Searches::any_below_zero, byte_words::proofs::Searches::any_below_more), unfolding(crate::specs::Fault::has_sections))]
pub fn has_sections(elf: &Elf<'_>) -> bool
    ensures { result ≡ has_sections elf.now }
{
    for index in 0..elf.sections() {
        if is_laid_out(&elf.section(index)) {
            return true;
        }
    }
    false
}

/// Whether a section of the image ends above 2^32.
pub fn ends_too_high(section: &Section) -> bool
    ensures { result ≡ ends_too_high section.now }
{
    is_laid_out(section) && end_of(section) > ADDRESS_END
}

/// Whether some section of the image does.
#[tactic(auto, using(byte_words::proofs::Searches::any_below_zero, byte_words::proofs::Searches::any_below_more), unfolding(crate::specs::Fault::some_ends_too_high))]
pub fn some_ends_too_high(elf: &Elf<'_>) -> bool
    ensures { result ≡ some_ends_too_high elf.now }
{
    for index in 0..elf.sections() {
        if ends_too_high(&elf.section(index)) {
            return true;
        }
    }
    false
}

/// Whether a section ends above 2^32, or the image is too large.
#[tactic(auto, unfolding(crate::specs::Fault::is_too_large, crate::specs::Numbering::distance))]
pub fn is_too_large(elf: &Elf<'_>) -> bool
    ensures { result ≡ is_too_large elf.now }
{
    some_ends_too_high(elf) || distance(raised_start(elf), highest(elf)) > MAX_SIZE
}

/// Whether two sections of the image have a common byte.
pub fn meets(section: &Section, other: &Section) -> bool
    ensures { result ≡ meets section.now other.now }
{
    is_laid_out(section)
        && is_laid_out(other)
        && u64::from(section.addr) < end_of(other)
        && u64::from(other.addr) < end_of(section)
}

/// Whether a section below `index` has a byte in common with the one at `index`.
#[tactic(auto, using(byte_words::proofs::Searches::any_below_zero, byte_words::proofs::Searches::any_below_more), unfolding(crate::specs::Fault::meets_below))]
pub fn meets_below(elf: &Elf<'_>, index: u32) -> bool
    requires { index < count_of elf.now }
    ensures { result ≡ meets_below elf.now index }
{
    let section = elf.section(index);
    for other in 0..index {
        if meets(&elf.section(other), &section) {
            return true;
        }
    }
    false
}

/// Whether some two sections of the image do.
#[tactic(auto, using(byte_words::proofs::Searches::any_below_zero, byte_words::proofs::Searches::any_below_more), unfolding(crate::specs::Fault::has_overlap))]
pub fn has_overlap(elf: &Elf<'_>) -> bool
    ensures { result ≡ has_overlap elf.now }
{
    for index in 0..elf.sections() {
        if meets_below(elf, index) {
            return true;
        }
    }
    false
}

/// Whether a section of the image is for a dynamic linker.
pub fn is_dynamic(section: &Section) -> bool
    ensures { result ≡ is_dynamic section.now }
{
    is_laid_out(section) && matches!(section.kind, SHT_DYNAMIC | SHT_DYNSYM | SHT_RELA | SHT_REL)
}

#[tactic(auto, using(byte_words::proofs::Searches::any_below_zero, byte_words::proofs::Searches::any_below_more), unfolding(crate::specs::Fault::has_dynamic))]
fn has_dynamic(elf: &Elf<'_>) -> bool
    ensures { result ≡ has_dynamic elf.now }
{
    for index in 0..elf.sections() {
        if is_dynamic(&elf.section(index)) {
            return true;
        }
    }
    false
}

/// Whether a section of the image is thread-local.
pub fn is_tls(section: &Section) -> bool
    ensures { result ≡ is_tls section.now }
{
    is_laid_out(section) && section.flags & SHF_TLS != 0
}

#[tactic(auto, using(byte_words::proofs::Searches::any_below_zero, byte_words::proofs::Searches::any_below_more), unfolding(crate::specs::Fault::has_tls))]
fn has_tls(elf: &Elf<'_>) -> bool
    ensures { result ≡ has_tls elf.now }
{
    for index in 0..elf.sections() {
        if is_tls(&elf.section(index)) {
            return true;
        }
    }
    false
}

/// Whether the four bytes at `address` are in a section of stored code.
fn holds_code(address: u32, section: &Section) -> bool
    ensures { result ≡ holds_code address section.now }
{
    has_bytes(section)
        && is_executable(section)
        && section.addr <= address
        && u64::from(address) + INSTRUCTION_LEN <= end_of(section)
}

#[tactic(auto, using(byte_words::proofs::Searches::any_below_zero, byte_words::proofs::Searches::any_below_more))]
fn some_holds_code(elf: &Elf<'_>, address: u32) -> bool
    ensures { result ≡ any_below (λ i. holds_code address (section elf.now i)) (count_of elf.now) }
{
    for index in 0..elf.sections() {
        if holds_code(address, &elf.section(index)) {
            return true;
        }
    }
    false
}

/// Whether the program begins at no whole instruction of stored code.
#[tactic(auto, unfolding(crate::specs::Fault::is_entry_outside))]
pub fn is_entry_outside(elf: &Elf<'_>) -> bool
    ensures { result ≡ is_entry_outside elf.now }
{
    let entry = elf.entry();
    entry % 4 != 0 || !some_holds_code(elf, entry)
}

/// The first fault of the sections' layout.
#[tactic(auto, unfolding(crate::specs::Fault::layout_fault))]
pub fn layout_fault(elf: &Elf<'_>) -> Option<LayoutFault>
    ensures { result ≡ layout_fault elf.now }
{
    if !has_sections(elf) {
        return Some(LayoutFault::NoSections);
    }
    if is_too_large(elf) {
        return Some(LayoutFault::TooLarge);
    }
    if has_overlap(elf) {
        return Some(LayoutFault::Overlap);
    }
    if has_dynamic(elf) {
        return Some(LayoutFault::Dynamic);
    }
    if has_tls(elf) {
        return Some(LayoutFault::Tls);
    }
    if is_entry_outside(elf) {
        return Some(LayoutFault::EntryOutside);
    }
    None
}
