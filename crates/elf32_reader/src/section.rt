//! Section headers (System V ABI, ELF32, "Sections").

ghost use Rattle.std.specs.Prelude.{◌≡◌, ◌+◌, ◌<◌, ◌≤◌, length};
ghost use Rattle.byte_words.specs.Search.{any_below};
ghost use Rattle.elf32_reader.specs.Header.{count_of};
ghost use Rattle.elf32_reader.specs.Sections.{section, is_allocated, is_stored, has_content, content, is_of_kind};
ghost use Rattle.elf32_reader.specs.Faults.{passes_end};
ghost use Rattle.elf32_reader.specs.Tables.{HasTable};

use crate::header::{header_start, section_count};
use byte_words::word;

const SHT_NULL: u32 = 0;

const SHT_NOBITS: u32 = 8;

const SHF_ALLOC: u32 = 2;

/// A section header. Its fields are those of Elf32_Shdr, without the prefix `sh_`.
#[derive(Clone, Copy)]
pub struct Section {
    /// The index of its name in the table of section names.
    pub name: u32,
    /// sh_type.
    pub kind: u32,
    pub flags: u32,
    /// The address of its first byte in the running program.
    pub addr: u32,
    /// The offset of its first byte in the file.
    pub offset: u32,
    /// In bytes.
    pub size: u32,
    pub link: u32,
    pub info: u32,
    pub addralign: u32,
    /// The bytes of one entry, in a section that is a table.
    pub entsize: u32,
}

impl Section {
    /// Whether it takes memory while the program runs: it has the flag SHF_ALLOC, and isn't NULL.
    #[tactic(auto, unfolding(crate::specs::Sections::is_allocated))]
    pub fn is_allocated(&self) -> bool
        ensures { result ≡ is_allocated self.now }
    {
        self.kind != SHT_NULL && self.flags & SHF_ALLOC != 0
    }

    /// Whether its bytes stand in the file: it isn't NOBITS.
    #[tactic(auto, unfolding(crate::specs::Sections::is_stored))]
    pub fn is_stored(&self) -> bool
        ensures { result ≡ is_stored self.now }
    {
        self.kind != SHT_NOBITS
    }

    /// Whether it is neither NULL nor NOBITS.
    #[tactic(auto, unfolding(crate::specs::Sections::has_content))]
    pub fn has_content(&self) -> bool
        ensures { result ≡ has_content self.now }
    {
        self.kind != SHT_NULL && self.kind != SHT_NOBITS
    }
}

#[tactic(auto, unfolding(crate::specs::Sections::section))]
pub fn section_at(bytes: &[u8], index: u32) -> Section
    requires table { HasTable bytes.now }
    requires index { index < count_of bytes.now }
    ensures { result ≡ section bytes.now index }
{
    let at = header_start(bytes, index);
    Section {
        name: word(bytes, at),
        kind: word(bytes, at + 4),
        flags: word(bytes, at + 8),
        addr: word(bytes, at + 12),
        offset: word(bytes, at + 16),
        size: word(bytes, at + 20),
        link: word(bytes, at + 24),
        info: word(bytes, at + 28),
        addralign: word(bytes, at + 32),
        entsize: word(bytes, at + 36),
    }
}

#[tactic(auto, unfolding(crate::specs::Sections::content))]
pub fn content_at<'a>(bytes: &'a [u8], section: &Section) -> &'a [u8]
    requires { section.now.offset + section.now.size ≤ length bytes.now }
    ensures { result.now ≡ content bytes.now section.now }
{
    let (_, rest) = bytes.split_at(section.offset as usize);
    rest.split_at(section.size as usize).0
}

/// Whether `index` is that of a section of the type `kind`.
#[tactic(auto, unfolding(crate::specs::Sections::is_of_kind))]
pub fn has_kind(bytes: &[u8], index: u32, kind: u32) -> bool
    requires { HasTable bytes.now }
    ensures { result ≡ is_of_kind bytes.now index kind }
{
    index < section_count(bytes) && section_at(bytes, index).kind == kind
}

/// Whether the content of a section passes the file's end.
#[tactic(auto, unfolding(crate::specs::Faults::passes_end))]
pub fn passes(bytes: &[u8], index: u32) -> bool
    requires table { HasTable bytes.now }
    requires index { index < count_of bytes.now }
    ensures { result ≡ passes_end bytes.now index }
{
    let section = section_at(bytes, index);
    section.has_content() && section.offset as usize + section.size as usize > bytes.len()
}

/// Whether the content of some section passes the file's end.
#[tactic(auto, using(byte_words::proofs::Searches::any_below_zero, byte_words::proofs::Searches::any_below_more))]
pub fn some_passes(bytes: &[u8]) -> bool
    requires { HasTable bytes.now }
    ensures { result ≡ any_below (passes_end bytes.now) (count_of bytes.now) }
{
    for index in 0..section_count(bytes) {
        if passes(bytes, index) {
            return true;
        }
    }
    false
}
