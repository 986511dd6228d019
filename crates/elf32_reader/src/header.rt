//! The file header.

ghost use Rattle.std.specs.Prelude.{◌≡◌, ◌+◌, ◌*◌, ◌≤◌, length};
ghost use Rattle.elf32_reader.specs.Header.{entry_of, table_of, count_of};
ghost use Rattle.elf32_reader.specs.Faults.{has_magic, is_current, has_table, header_fault};

use crate::fault::ElfFault;
use byte_words::{byte, half, word};

/// The bytes of a file header.
pub const HEADER_LEN: usize = 52;
/// The bytes of a section header, e_shentsize.
pub const SECTION_HEADER_LEN: u16 = 40;

const MAX_SECTIONS: u32 = 4096;

const ET_EXEC: u16 = 2;

const EM_RISCV: u16 = 243;
/// The flags of e_flags that are refused: RVC, the float ABI and RVE.
const REFUSED_FLAGS: u32 = 15;

/// e_entry: the address where the program begins.
#[tactic(auto, unfolding(crate::specs::Header::entry_of))]
pub fn entry_address(bytes: &[u8]) -> u32
    requires { 52 ≤ length bytes.now }
    ensures { result ≡ entry_of bytes.now }
{
    word(bytes, 24)
}

/// e_shoff: the offset of the section header table.
#[tactic(auto, unfolding(crate::specs::Header::table_of))]
pub fn table_start(bytes: &[u8]) -> u32
    requires { 52 ≤ length bytes.now }
    ensures { result ≡ table_of bytes.now }
{
    word(bytes, 32)
}

/// e_shnum: the number of section headers.
#[tactic(auto, unfolding(crate::specs::Header::count_of))]
pub fn section_count(bytes: &[u8]) -> u32
    requires { 52 ≤ length bytes.now }
    ensures { result ≡ count_of bytes.now }
{
    u32::from(half(bytes, 48))
}

/// The offset of the section header of an index.
pub fn header_start(bytes: &[u8], index: u32) -> usize
    requires { 52 ≤ length bytes.now }
    ensures { result ≡ table_of bytes.now + 40 * index }
{
    table_start(bytes) as usize + SECTION_HEADER_LEN as usize * index as usize
}

#[tactic(auto, unfolding(crate::specs::Faults::has_magic))]
fn begins_with_magic(bytes: &[u8]) -> bool
    requires { 52 ≤ length bytes.now }
    ensures { result ≡ has_magic bytes.now }
{
    byte(bytes, 0) == 0x7f
        && byte(bytes, 1) == 0x45
        && byte(bytes, 2) == 0x4c
        && byte(bytes, 3) == 0x46
}

#[tactic(auto, unfolding(crate::specs::Faults::is_current))]
fn has_current_version(bytes: &[u8]) -> bool
    requires { 52 ≤ length bytes.now }
    ensures { result ≡ is_current bytes.now }
{
    byte(bytes, 6) == 1 && word(bytes, 20) == 1
}

#[tactic(auto, unfolding(crate::specs::Faults::has_table))]
fn has_section_table(bytes: &[u8]) -> bool
    requires { 52 ≤ length bytes.now }
    ensures { result ≡ has_table bytes.now }
{
    let count = section_count(bytes);
    half(bytes, 46) == SECTION_HEADER_LEN
        && count != 0
        && count <= MAX_SECTIONS
        && header_start(bytes, count) <= bytes.len()
}

/// The first fault of the file header and of where the section header table lies.
#[tactic(auto, unfolding(crate::specs::Faults::header_fault))]
pub fn header_fault_of(bytes: &[u8]) -> Option<ElfFault>
    ensures { result ≡ header_fault bytes.now }
{
    if bytes.len() < HEADER_LEN {
        return Some(ElfFault::Short);
    }
    if !begins_with_magic(bytes) {
        return Some(ElfFault::Magic);
    }
    if byte(bytes, 4) != 1 {
        return Some(ElfFault::Class);
    }
    if byte(bytes, 5) != 1 {
        return Some(ElfFault::Order);
    }
    if !has_current_version(bytes) {
        return Some(ElfFault::Version);
    }
    if half(bytes, 16) != ET_EXEC {
        return Some(ElfFault::FileType);
    }
    if half(bytes, 18) != EM_RISCV {
        return Some(ElfFault::Machine);
    }
    if word(bytes, 36) & REFUSED_FLAGS != 0 {
        return Some(ElfFault::Flags);
    }
    if !has_section_table(bytes) {
        return Some(ElfFault::SectionTable);
    }
    None
}
