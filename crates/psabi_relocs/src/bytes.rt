//! The linked bytes of a section by address.

ghost use Rattle.std.specs.Prelude.{◌≡◌, ◌<◌, true};
ghost use Rattle.elf32_reader.specs.Accepted.{IsAccepted};
ghost use Rattle.elf32_reader.specs.Header.{count_of};
ghost use Rattle.elf32_reader.specs.Sections.{section, is_allocated};
ghost use Rattle.psabi_relocs.specs.Bytes.{holds, word_in};

use byte_words::word;
use elf32_reader::{Elf, Section};

/// The bytes of a word, of an instruction and of a slot.
pub const WORD_LEN: u32 = 4;

/// Whether `len` bytes from an address on stand in the section's content.
pub fn holds(section: &Section, address: u32, len: u32) -> bool
    ensures { result ≡ holds section.now address len }
{
    let (address, start) = (u64::from(address), u64::from(section.addr));
    section.is_stored()
        && start <= address
        && address + u64::from(len) <= start + u64::from(section.size)
}

/// The linked word at an address of section `index`, which holds its four bytes.
pub fn linked_word(elf: &Elf<'_>, index: u32, address: u32) -> u32
    requires accepted { IsAccepted elf.now }
    requires index { index < count_of elf.now }
    requires allocated { is_allocated (section elf.now index) ≡ true }
    requires holds { holds (section elf.now index) address 4 ≡ true }
    ensures { result ≡ word_in elf.now (section elf.now index) address }
{
    let start = elf.section(index).addr;
    word(elf.content(index), (address - start) as usize)
}
