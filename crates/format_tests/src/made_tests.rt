//! Tests of `elf_maker`.

ghost use Rattle.std.specs.Prelude.{◌≡◌, ◌<◌, ◌==◌, length, IfOk, IfSome};
ghost use Rattle.std.specs.List.{list_any};
ghost use Rattle.elf32_reader.specs.Symbols.{is_symtab};
ghost use Rattle.elf_maker.specs.Given.{IsPart, HasPlainName};

use elf_maker::*;
use elf32_reader::Elf;
use std::alloc::{AllocError, Global};
use std::test::*;

/// A part with content, PROGBITS.
fn progbits(alloc: Global, flags: u32, addr: u32, bytes: &[u8]) -> Result<Part, AllocError>
    requires { length bytes.now < 100 }
    ensures part { IfOk result IsPart }
    ensures flags { IfOk result (λ p. p.flags ≡ flags) }
    ensures bytes { IfOk result (λ p. length p.bytes.items < 100) }
{
    Ok(Part {
        kind: 1,
        flags,
        addr,
        size: bytes.len() as u32,
        bytes: Vec::from_slice(alloc, bytes)?,
    })
}

/// A part without content, NOBITS.
fn nobits(alloc: Global, addr: u32, size: u32) -> Part
    ensures part { IsPart result }
    ensures bytes { length result.bytes.items ≡ 0 }
{
    Part {
        kind: 8,
        flags: 3,
        addr,
        size,
        bytes: Vec::new(alloc),
    }
}

fn has_zero(bytes: &[u8]) -> bool
    ensures { result ≡ list_any (λ b. b == 0) bytes.now }
{
    bytes.iter().any(|b| *b == 0)
}

/// A symbol, or none where its name has a zero.
fn symbol(
    alloc: Global,
    name: &[u8],
    value: u32,
    info: u8,
    shndx: u16,
) -> Result<Option<MakeSymbol>, AllocError>
    requires { length name.now < 100 }
    ensures named { IfOk result (λ s. IfSome s HasPlainName) }
    ensures short { IfOk result (λ s. IfSome s (λ s. length s.name.items < 100)) }
{
    if has_zero(name) {
        return Ok(None);
    }
    Ok(Some(MakeSymbol {
        name: Vec::from_slice(alloc, name)?,
        value,
        info,
        shndx,
    }))
}

fn rela(part: u32, offset: u32, symbol: u32, kind: u8, addend: i32) -> MakeRela
    ensures part { result.part ≡ part }
    ensures symbol { result.symbol ≡ symbol }
{
    MakeRela {
        part,
        offset,
        symbol,
        kind,
        addend,
    }
}

/// A section's kind, flags, address, size, link, info and size of an entry.
type Header = [u32; 7];

fn section_in(elf: &Elf<'_>, index: u32) -> Option<Header> {
    if index >= elf.sections() {
        return None;
    }
    let s = elf.section(index);
    Some([s.kind, s.flags, s.addr, s.size, s.link, s.info, s.entsize])
}

fn content_in<'a>(elf: &'a Elf<'_>, index: u32) -> Option<&'a [u8]> {
    if index >= elf.sections() || !elf.section(index).has_content() {
        return None;
    }
    Some(elf.content(index))
}

#[tactic(auto, unfolding(elf32_reader::specs::Symbols::is_symtab, elf32_reader::specs::Sections::is_of_kind))]
fn is_table(elf: &Elf<'_>, table: u32) -> bool
    ensures { result ≡ is_symtab elf.now table }
{
    table < elf.sections() && elf.section(table).kind == 2
}

/// A symbol's value, size, info, other and section, and its name.
type Named<'a> = ((u32, u32, u8, u8, u16), &'a [u8]);

fn symbol_in<'a>(elf: &'a Elf<'_>, table: u32, index: u32) -> Option<Named<'a>> {
    if !is_table(elf, table) || index >= elf.symbols(table) {
        return None;
    }
    let s = elf.symbol(table, index);
    Some((
        (s.value, s.size, s.info, s.other, s.shndx),
        elf.name(table, index),
    ))
}

/// An entry's offset, symbol, type and addend.
type Entry = (u32, u32, u8, i32);

fn rela_in(elf: &Elf<'_>, index: u32, entry: u32) -> Option<Entry> {
    if index >= elf.sections() || !elf.kept(index) || entry >= elf.relas(index) {
        return None;
    }
    let r = elf.rela(index, entry);
    Some((r.offset, r.symbol, r.kind, r.addend))
}

/// What a file says: its entry, the number of its sections, these from 1 on, the content of one, the symbols
/// of one from 0 on, and entries by section and index.
struct Expected {
    entry: u32,
    sections: u32,
    headers: &'static [(u32, Header)],
    content: (u32, Option<&'static [u8]>),
    symbols: &'static [(u32, u32, Option<Named<'static>>)],
    entries: &'static [(u32, u32, Option<Entry>)],
}

fn has_headers(elf: &Elf<'_>, want: &Expected) -> bool {
    for (index, header) in want.headers {
        if section_in(elf, *index) != Some(*header) {
            return false;
        }
    }
    true
}

fn has_symbols(elf: &Elf<'_>, want: &Expected) -> bool {
    for (table, index, named) in want.symbols {
        if symbol_in(elf, *table, *index) != *named {
            return false;
        }
    }
    true
}

fn has_entries(elf: &Elf<'_>, want: &Expected) -> bool {
    for (section, index, entry) in want.entries {
        if rela_in(elf, *section, *index) != *entry {
            return false;
        }
    }
    true
}

fn has_content(elf: &Elf<'_>, want: &Expected) -> bool {
    let (index, content) = want.content;
    content_in(elf, index) == content
}

/// Whether a file says that.
fn says(file: &[u8], want: &Expected) -> bool {
    match Elf::read(file) {
        Ok(elf) => {
            elf.entry() == want.entry
                && elf.sections() == want.sections
                && has_content(&elf, want)
                && has_headers(&elf, want)
                && has_symbols(&elf, want)
                && has_entries(&elf, want)
        }
        Err(_) => false,
    }
}

/// Relocations of two parts, mixed, with a part without content between them; weak, absolute and
/// nameless symbols.
fn three_parts(alloc: Global) -> Result<Vec<u8>, Fail> {
    let text = progbits(alloc, 6, 0x20000, &[1, 2, 3, 4, 5, 6, 7, 8])?;
    let bss = nobits(alloc, 0x20008, 0x4000_0000);
    let data = progbits(alloc, 3, 0x6002_0008, &[9, 10, 11, 12])?;
    let weak = symbol(alloc, b"weak", 0, 0x20, 0)?.ok_or("a zero")?;
    let absolute = symbol(alloc, b"__global_pointer$", 0x20800, 0x10, 0xfff1)?.ok_or("a zero")?;
    let nameless = symbol(alloc, b"", 0xffff_ffff, 3, 3)?.ok_or("a zero")?;
    let relas = [
        rela(2, 0x6002_0008, 3, 1, -4),
        rela(0, 0x20004, 2, 23, 0x7fff_ffff),
        rela(2, 0x6002_000a, 0, 51, 0),
        rela(0, 0x20000, 1, 255, -0x8000_0000),
    ];
    let symbols = [weak, absolute, nameless];
    Ok(make(alloc, &[text, bss, data], &symbols, &relas, 0xffff_fffc)?)
}

static THREE_PARTS: Expected = Expected {
    entry: 0xffff_fffc,
    sections: 8,
    headers: &[
        (1, [1, 6, 0x20000, 8, 0, 0, 0]),
        (2, [8, 3, 0x20008, 0x4000_0000, 0, 0, 0]),
        (3, [1, 3, 0x6002_0008, 4, 0, 0, 0]),
        (4, [2, 0, 0, 64, 5, 1, 16]),
        (5, [3, 0, 0, 25, 0, 0, 0]),
        (6, [4, 0, 0, 24, 4, 1, 12]),
        (7, [4, 0, 0, 24, 4, 3, 12]),
    ],
    content: (3, Some(&[9, 10, 11, 12])),
    symbols: &[
        (4, 0, Some(((0, 0, 0, 0, 0), b""))),
        (4, 1, Some(((0, 0, 0x20, 0, 0), b"weak"))),
        (
            4,
            2,
            Some(((0x20800, 0, 0x10, 0, 0xfff1), b"__global_pointer$")),
        ),
        (4, 3, Some(((0xffff_ffff, 0, 3, 0, 3), b""))),
    ],
    entries: &[
        (6, 0, Some((0x20004, 2, 23, 0x7fff_ffff))),
        (6, 1, Some((0x20000, 1, 255, -0x8000_0000))),
        (7, 0, Some((0x6002_0008, 3, 1, -4))),
        (7, 1, Some((0x6002_000a, 0, 51, 0))),
    ],
};

#[test]
fn three_parts_are_made(rt: HostRuntime) -> Result<(), Fail> {
    let file = three_parts(rt.alloc())?;
    assert!(rt; says(&file, &THREE_PARTS));
    Ok(())
}

/// A file of nothing has the three sections that each file has.
static NOTHING: Expected = Expected {
    entry: 0,
    sections: 3,
    headers: &[(1, [2, 0, 0, 16, 2, 1, 16]), (2, [3, 0, 0, 1, 0, 0, 0])],
    content: (2, Some(&[0])),
    symbols: &[(1, 0, Some(((0, 0, 0, 0, 0), b""))), (1, 1, None)],
    entries: &[],
};

#[test]
fn nothing_is_made(rt: HostRuntime) -> Result<(), Fail> {
    let file = make(rt.alloc(), &[], &[], &[], 0)?;
    assert!(rt; says(&file, &NOTHING));
    Ok(())
}

/// The last program of the demo: its sections, its pointer, and the relocations of its code.
static LAST_PROGRAM: Expected = Expected {
    entry: 0x10000,
    sections: 7,
    headers: &[
        (1, [1, 6, 0x10000, 48, 0, 0, 0]),
        (2, [1, 3, 0x10040, 8, 0, 0, 0]),
    ],
    content: (2, Some(b"l\n\0\0\x40\x00\x01\x00")),
    symbols: &[],
    entries: &[
        (5, 0, Some((0x10004, 1, 23, 4))),
        (5, 1, Some((0x10008, 2, 24, 0))),
        (5, 2, Some((0x10020, 3, 16, 0))),
        (6, 0, Some((0x10044, 1, 1, 0))),
    ],
};

#[test]
fn the_last_program_is_made(rt: HostRuntime) -> Result<(), Fail> {
    let file = demo(rt.alloc(), 64)?;
    assert!(rt; says(&file, &LAST_PROGRAM));
    Ok(())
}
