//! Which symbols stand around the entries with a fault, and which ones they mean.

ghost use Rattle.std.specs.Prelude.{◌≡◌, ◌<◌, true, None, Some, replicate, slice_get, IfOk};
ghost use Rattle.elf32_reader.specs.Accepted.{IsAccepted};
ghost use Rattle.elf32_reader.specs.Relas.{is_kept, rela_count};
ghost use Rattle.elf32_reader.specs.Symbols.{is_symtab};
ghost use Rattle.elf2flt_tool.specs.Faults.{entry_at};
ghost use Rattle.fault_texts.specs.Lines.{sight_of};
ghost use Rattle.fault_texts.specs.InFile.{AreTables, HasTable};

use crate::entry::EntryAt;
use elf32_reader::Elf;
use psabi_relocs::{Around, Meant, meant_by};
use std::alloc::{AllocError, Global};
use std::marker::Model;

/// What is told of an entry beside its numbers.
#[derive(Clone, Copy)]
pub struct Sight {
    /// The index of the symbol around its place, if there is one.
    pub around: Option<u32>,
    /// The symbol that it means.
    pub meant: Meant,
}

/// A file that was read, with the index of each table of symbols that was asked for. Contracts see the list of the file's bytes.
#[derive(Drop)]
pub struct Sights<'a> {
    alloc: Global,
    elf: &'a Elf<'a>,
    // by the section index of the table
    tables: Vec<Option<Around>>,
}

impl<'a> Model for Sights<'a> {
    ghost use Rattle.std.specs.Prelude.{ℕ, List};
    ghost use Rattle.fault_texts.specs.InFile.{AreTables};

    ghost Value = { List ℕ };

    ghost view = { λ s. s.elf.now };

    ghost invariant = { λ s. AreTables s.elf.now s.tables.items };
}

/// A place for each of so many tables.
fn no_tables(alloc: Global, count: u32) -> Result<Vec<Option<Around>>, AllocError>
    ensures { IfOk result (λ tables. tables.items ≡ replicate count None) }
{
    let mut tables = Vec::with_capacity(alloc, count as usize)?;
    for _index in 0..count {
        tables.push(None)?;
    }
    Ok(tables)
}

/// Makes the index of a table, if it isn't there.
fn ready_table(
    alloc: Global,
    elf: &Elf<'_>,
    tables: &mut Vec<Option<Around>>,
    table: u32,
) -> Result<(), AllocError>
    requires table { is_symtab elf.now table ≡ true }
    requires tables { AreTables elf.now tables.old.items }
    ensures tables { AreTables elf.now tables.new.items }
    ensures ready { IfOk result (λ _. HasTable tables.new.items table) }
{
    let place = table as usize;
    if tables[place].is_none() {
        tables[place] = Some(Around::of(alloc, elf, table)?);
    }
    Ok(())
}

/// The index of a table that is there.
fn table_in(tables: &[Option<Around>], table: u32) -> &Around
    requires { HasTable tables.now table }
    ensures { slice_get tables.now table ≡ Some (Some result.now) }
{
    match &tables[table as usize] {
        Some(around) => around,
        None => unreachable!(),
    }
}

/// What is told of an entry. The index of its table is made, if it isn't there.
fn sight_in(
    alloc: Global,
    elf: &Elf<'_>,
    tables: &mut Vec<Option<Around>>,
    entry: EntryAt,
) -> Result<Sight, AllocError>
    requires kept { is_kept elf.now entry.section ≡ true }
    requires entry { entry.index < rela_count elf.now entry.section }
    requires tables { AreTables elf.now tables.old.items }
    ensures tables { AreTables elf.now tables.new.items }
    ensures sight { IfOk result (λ sight. sight ≡ sight_of elf.now (entry_at entry.section entry.index)) }
{
    let kept = elf.section(entry.section);
    let rela = elf.rela(entry.section, entry.index);
    ready_table(alloc, elf, tables, kept.link)?;
    let around = table_in(tables, kept.link);
    Ok(Sight {
        around: around.find(kept.info, rela.offset),
        meant: meant_by(elf, kept.link, around, rela.symbol, rela.addend),
    })
}

impl<'a> Sights<'a> {
    /// No table was asked for yet.
    pub fn of(alloc: Global, elf: &'a Elf<'a>) -> Result<Sights<'a>, AllocError>
        ensures { IfOk result (λ sights. sights ≡ elf.now) }
    {
        let tables = no_tables(alloc, elf.sections())?;
        Ok(Sights { alloc, elf, tables })
    }

    /// The file.
    pub fn elf(&self) -> &Elf<'a>
        ensures accepted { IsAccepted self.now }
        ensures file { result.now ≡ self.now }
    {
        self.elf
    }

    /// What is told of an entry. The time is the logarithm of the number of symbols, but for the first entry of each table.
    pub fn sight(&mut self, entry: EntryAt) -> Result<Sight, AllocError>
        requires kept { is_kept self.old entry.section ≡ true }
        requires entry { entry.index < rela_count self.old entry.section }
        ensures same { self.new ≡ self.old }
        ensures sight { IfOk result (λ sight. sight ≡ sight_of self.old (entry_at entry.section entry.index)) }
    {
        sight_in(self.alloc, self.elf, &mut self.tables, entry)
    }
}
