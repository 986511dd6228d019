//! Tests of `elf32_reader`.

ghost use Rattle.std.specs.Prelude.{◌≡◌};
ghost use Rattle.elf32_reader.specs.Symbols.{is_symtab};

use crate::sample::ONE_WORD_ELF;
use elf32_reader::*;
use std::alloc::{AllocError, Global};
use std::test::*;

/// The offset of the size of the table of names, in its section header.
const NAMES_SIZE: usize = 296;

/// `ONE_WORD_ELF` with some bytes replaced, each given by its offset.
fn edited(alloc: Global, edits: &[(usize, u8)]) -> Result<Vec<u8>, AllocError> {
    let mut file = Vec::from_slice(alloc, &ONE_WORD_ELF)?;
    for (offset, byte) in edits {
        if *offset < file.len() {
            file[*offset] = *byte;
        }
    }
    Ok(file)
}

/// A section's header field by field, whether it is allocated, stored and kept, and its content.
type Seen<'a> = ([u32; 10], [bool; 3], Option<&'a [u8]>);

fn section_in<'a>(elf: &'a Elf<'_>, index: u32) -> Option<Seen<'a>> {
    if index >= elf.sections() {
        return None;
    }
    let s = elf.section(index);
    let fields = [
        s.name,
        s.kind,
        s.flags,
        s.addr,
        s.offset,
        s.size,
        s.link,
        s.info,
        s.addralign,
        s.entsize,
    ];
    let content = if s.has_content() {
        Some(elf.content(index))
    } else {
        None
    };
    Some((
        fields,
        [s.is_allocated(), s.is_stored(), elf.kept(index)],
        content,
    ))
}

static SECTIONS: [(u32, Option<Seen<'static>>); 7] = [
    (
        0,
        Some(([0, 0, 0, 0, 0, 0, 0, 0, 0, 0], [false, true, false], None)),
    ),
    (
        1,
        Some((
            [0, 1, 6, 0x10000, 52, 8, 0, 0, 4, 0],
            [true, true, false],
            Some(&[0x13, 0, 0, 0, 0x13, 0, 0, 0]),
        )),
    ),
    (
        2,
        Some((
            [0, 1, 3, 0x10008, 60, 4, 0, 0, 4, 0],
            [true, true, false],
            Some(&[0, 0, 1, 0]),
        )),
    ),
    (
        3,
        Some((
            [0, 2, 0, 0, 64, 32, 4, 1, 4, 16],
            [false, true, false],
            Some(&[
                0, 0, 0, 0, 0, 0, 0, 0, 0, 0, 0, 0, 0, 0, 0, 0, 1, 0, 0, 0, 0, 0, 1, 0, 0, 0, 0, 0,
                16, 0, 1, 0,
            ]),
        )),
    ),
    (
        4,
        Some((
            [0, 3, 0, 0, 96, 7, 0, 0, 1, 0],
            [false, true, false],
            Some(b"\0start\0"),
        )),
    ),
    (
        5,
        Some((
            [0, 4, 0, 0, 104, 12, 3, 2, 4, 12],
            [false, true, true],
            Some(&[8, 0, 1, 0, 1, 1, 0, 0, 0, 0, 0, 0]),
        )),
    ),
    (6, None),
];

/// The first section that is another one.
fn other_section(elf: &Elf<'_>) -> Option<u32> {
    for &(index, want) in &SECTIONS {
        if section_in(elf, index) != want {
            return Some(index);
        }
    }
    None
}

/// Whether a file has that entry and these sections.
fn has_sections(file: &[u8]) -> bool {
    match Elf::read(file) {
        Ok(elf) => {
            elf.entry() == 0x10000 && elf.sections() == 6 && other_section(&elf).is_none()
        }
        Err(_) => false,
    }
}

/// Whether a section is a symbol table.
#[tactic(auto, unfolding(elf32_reader::specs::Symbols::is_symtab, elf32_reader::specs::Sections::is_of_kind))]
fn is_table(elf: &Elf<'_>, table: u32) -> bool
    ensures { result ≡ is_symtab elf.now table }
{
    table < elf.sections() && elf.section(table).kind == 2
}

/// A symbol's name, value, size, info, other and section, its name's bytes, and the first two of these.
type Named<'a> = ((u32, u32, u32, u8, u8, u16), &'a [u8], &'a [u8]);

fn symbol_in<'a>(elf: &'a Elf<'_>, table: u32, index: u32) -> Option<Named<'a>> {
    if !is_table(elf, table) || index >= elf.symbols(table) {
        return None;
    }
    let s = elf.symbol(table, index);
    Some((
        (s.name, s.value, s.size, s.info, s.other, s.shndx),
        elf.name(table, index),
        elf.name_start(table, index, 2),
    ))
}

/// An entry's offset, symbol, type and addend.
type Entry = (u32, u32, u8, i32);

fn rela_in(elf: &Elf<'_>, index: u32, entry: u32) -> Option<Entry> {
    if index >= elf.sections() || !elf.kept(index) || entry >= elf.relas(index) {
        return None;
    }
    let r = elf.rela(index, entry);
    Some((r.offset, r.symbol, r.kind, r.addend))
}

/// A symbol table, the index of a symbol, and what it is; a relocation section, the index of an entry, and
/// what it is.
type Row = (
    (u32, u32, Option<Named<'static>>),
    (u32, u32, Option<Entry>),
);

const NO_SYMBOL: Option<Named<'static>> = Some(((0, 0, 0, 0, 0, 0), b"", b""));

/// Those of the file as it is.
static WHOLE: [Row; 4] = [
    ((3, 0, NO_SYMBOL), (5, 0, Some((0x10008, 1, 1, 0)))),
    (
        (3, 1, Some(((1, 0x10000, 0, 0x10, 0, 1), b"start", b"st"))),
        (5, 1, None),
    ),
    ((3, 2, None), (3, 0, None)),
    ((4, 0, None), (6, 0, None)),
];

/// Those of the file with a shorter table of names and a negative addend.
static CUT: [Row; 4] = [
    ((3, 0, NO_SYMBOL), (5, 0, Some((0x10008, 1, 1, -4)))),
    (
        (3, 1, Some(((1, 0x10000, 0, 0x10, 0, 1), b"sta", b"st"))),
        (5, 1, None),
    ),
    ((3, 2, None), (3, 0, None)),
    ((4, 0, None), (6, 0, None)),
];

/// The first symbol in whose row something is otherwise.
fn other_row(elf: &Elf<'_>, rows: &[Row]) -> Option<u32> {
    for ((table, symbol, named), (section, index, entry)) in rows {
        let is_so = symbol_in(elf, *table, *symbol) == *named
            && rela_in(elf, *section, *index) == *entry;
        if !is_so {
            return Some(*symbol);
        }
    }
    None
}

fn has_rows(file: &[u8], rows: &[Row]) -> bool {
    match Elf::read(file) {
        Ok(elf) => other_row(&elf, rows).is_none(),
        Err(_) => false,
    }
}

#[test]
fn reads_the_example(rt: HostRuntime) -> Result<(), Fail> {
    let cut = edited(rt.alloc(), &CUT_EDITS)?;
    let whole = has_sections(&ONE_WORD_ELF) && has_rows(&ONE_WORD_ELF, &WHOLE);
    assert!(rt; whole && has_rows(&cut, &CUT));
    Ok(())
}

static CUT_EDITS: [(usize, u8); 5] = [
    (NAMES_SIZE, 4),
    (112, 0xfc),
    (113, 0xff),
    (114, 0xff),
    (115, 0xff),
];
