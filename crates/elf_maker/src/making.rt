//! The whole file.

ghost use Rattle.std.specs.Prelude.{◌≡◌, ℕ, ◌+◌, ◌*◌, ◌^◌, ◌<◌, ◌≤◌, [], ◌∷◌, ◌++◌, length, map, IfOk, OnOk};
ghost use Rattle.std.specs.List.{All, AllByRecursion, flat_map};
ghost use Rattle.elf_maker.specs.Given.{IsPart, HasPlainName, IsRela, total};
ghost use Rattle.elf_maker.specs.Fits.{FitsPart, FitsSymbol, FitsAll};
ghost use Rattle.elf_maker.specs.Makes.{Makes};
ghost use Rattle.elf_maker.specs.Values.{part_value, symbol_value, file_bytes};
ghost use Rattle.elf_maker.specs.Spelling.{Adds, header_of, part_header, part_item, table_header, symtab_item, strtab_item, symtab_text, strtab_text, relas_items, spelled};

use crate::given::{MakeRela, MakeSymbol, Part};
use crate::tables::{rela_tables, symbol_table};
use crate::writer::Writer;
use elf32_reader::Section;
use std::alloc::{AllocError, Global};

const SHT_SYMTAB: u32 = 2;

const SHT_STRTAB: u32 = 3;

const SHT_RELA: u32 = 4;
/// The bytes of a symbol.
const SYMBOL_LEN: u32 = 16;
/// The bytes of a relocation with an addend.
const RELA_LEN: u32 = 12;

/// A section header without its offset, whose numbers are known to fit.
#[tactic(auto, unfolding(crate::specs::Spelling::header_of))]
fn section(
    kind: u32,
    flags: u32,
    addr: u32,
    size: u32,
    link: u32,
    info: u32,
    entsize: u32,
) -> Section
    ensures header { result ≡ header_of kind flags addr size link info entsize }
    ensures kind { kind < 2 ^ 32 }
    ensures flags { flags < 2 ^ 32 }
    ensures addr { addr < 2 ^ 32 }
    ensures size { size < 2 ^ 32 }
{
    Section {
        name: 0,
        kind,
        flags,
        addr,
        offset: 0,
        size,
        link,
        info,
        addralign: 1,
        entsize,
    }
}

/// The section header of a part, without its offset.
#[tactic(auto, unfolding(crate::specs::Spelling::part_header))]
fn part_section(part: &Part) -> Section
    ensures header { result ≡ part_header part.now }
    ensures fits { FitsPart part.now }
{
    section(part.kind, part.flags, part.addr, part.size, 0, 0, 0)
}

/// The section header of a table, without its offset.
#[tactic(auto, unfolding(crate::specs::Spelling::table_header))]
fn table_section(kind: u32, size: u32, link: u32, info: u32, entsize: u32) -> Section
    ensures { result ≡ table_header kind size link info entsize }
{
    section(kind, 0, 0, size, link, info, entsize)
}

/// Adds a section for each part.
fn push_parts(writer: &mut Writer, parts: &[Part]) -> Result<(), AllocError>
    requires { length writer.old.body.items + length (flat_map (λ p. p.bytes.items) parts.now) < 2 ^ 31 }
    ensures sections { OnOk result (Adds writer.old writer.new (map part_item parts.now)) }
    ensures fits { OnOk result (All FitsPart parts.now) }
{
    for part in parts {
        writer.push(part_section(part), &part.bytes)?;
    }
    Ok(())
}

/// Adds the symbol table and its string table, behind `parts` parts.
fn push_symbols(
    alloc: Global,
    writer: &mut Writer,
    parts: u32,
    symbols: &[MakeSymbol],
) -> Result<(), AllocError>
    requires parts { parts < 1000 }
    requires room { length writer.old.body.items + (length (symtab_text symbols.now) + length (strtab_text symbols.now)) < 2 ^ 31 }
    ensures sections { OnOk result (Adds writer.old writer.new (symtab_item parts symbols.now ∷ strtab_item symbols.now ∷ [])) }
    ensures fits { OnOk result (All FitsSymbol symbols.now) }
{
    let table = symbol_table(alloc, symbols)?;
    let entries_len = table.entries.len() as u32;
    writer.push(
        table_section(SHT_SYMTAB, entries_len, parts + 2, 1, SYMBOL_LEN),
        &table.entries,
    )?;
    let names_len = table.names.len() as u32;
    writer.push(table_section(SHT_STRTAB, names_len, 0, 0, 0), &table.names)
}

/// Adds the relocation section of a part, unless it has no entry.
fn push_table(writer: &mut Writer, symtab: u32, part: u32, table: &[u8]) -> Result<(), AllocError>
    requires part { part < 1000 }
    requires body { length writer.old.body.items < 2 ^ 31 }
    requires table { length table.now < 2 ^ 31 }
    ensures { OnOk result (Adds writer.old writer.new (relas_items symtab part (table.now ∷ []))) }
{
    if table.is_empty() {
        return Ok(());
    }
    let len = table.len() as u32;
    writer.push(
        table_section(SHT_RELA, len, symtab, part + 1, RELA_LEN),
        table,
    )
}

/// Adds a relocation section for each part that has relocations, given the entries of each.
fn push_tables(writer: &mut Writer, symtab: u32, tables: &[Vec<u8>]) -> Result<(), AllocError>
    requires count { length tables.now < 1000 }
    requires room { length writer.old.body.items + length (flat_map (λ t. t.items) tables.now) < 2 ^ 31 }
    ensures { OnOk result (Adds writer.old writer.new (relas_items symtab 0 (map (λ t. t.items) tables.now))) }
{
    for (part, table) in tables.iter().enumerate() {
        push_table(writer, symtab, part as u32, table)?;
    }
    Ok(())
}

/// The bytes of the file, as they are laid.
#[tactic(auto, unfolding(crate::specs::Spelling::spelled))]
fn written(
    alloc: Global,
    parts: &[Part],
    symbols: &[MakeSymbol],
    relas: &[MakeRela],
    entry: u32,
) -> Result<Vec<u8>, AllocError>
    requires few_parts { length parts.now < 1000 }
    requires few_bytes { total parts.now symbols.now < 2 ^ 24 }
    requires few_symbols { length symbols.now < 2 ^ 24 }
    requires few_relas { length relas.now < 2 ^ 24 }
    requires relas { All (IsRela parts.now symbols.now) relas.now }
    ensures file { IfOk result (λ file. file.items ≡ spelled parts.now symbols.now relas.now entry) }
    ensures fits { OnOk result (FitsAll parts.now symbols.now relas.now entry) }
{
    let count = parts.len() as u32;
    let mut writer = Writer::new(alloc)?;
    push_parts(&mut writer, parts)?;
    push_symbols(alloc, &mut writer, count, symbols)?;
    let tables = rela_tables(alloc, parts.len(), relas)?;
    push_tables(&mut writer, count + 1, &tables)?;
    writer.finish(alloc, entry)
}

/// Writes a linked executable for RV32 with these parts as its sections, these symbols in one symbol
/// table, and these relocations in one kept relocation section for each part that has some.
///
/// Part i is section i + 1. Symbol 0 is the empty symbol, and the given ones are those from 1 on. The file
/// has no program headers and no section names.
pub fn make(
    alloc: Global,
    parts: &[Part],
    symbols: &[MakeSymbol],
    relas: &[MakeRela],
    entry: u32,
) -> Result<Vec<u8>, AllocError>
    requires few_parts { length parts.now < 1000 }
    requires few_symbols { length symbols.now < 2 ^ 24 }
    requires few_relas { length relas.now < 2 ^ 24 }
    requires few_bytes { total parts.now symbols.now < 2 ^ 24 }
    requires parts { AllByRecursion IsPart parts.now }
    requires symbols { AllByRecursion HasPlainName symbols.now }
    requires relas { AllByRecursion (IsRela parts.now symbols.now) relas.now }
    ensures makes { IfOk result (λ file. Makes parts.now symbols.now relas.now entry file.items) }
    ensures bytes { IfOk result (λ file. file.items ≡ file_bytes (map part_value parts.now) (map symbol_value symbols.now) relas.now entry) }
{
    written(alloc, parts, symbols, relas, entry)
}
