//! The symbol table, its names, and the relocations.

ghost use Rattle.std.specs.Prelude.{◌≡◌, ℕ, ◌+◌, ◌*◌, ◌^◌, ◌<◌, [], ◌∷◌, ◌++◌, length, map, IfOk, OnOk};
ghost use Rattle.std.specs.List.{All};
ghost use Rattle.elf_maker.specs.Fits.{FitsSymbol, FitsRela};
ghost use Rattle.elf_maker.specs.Spelling.{words_text, halves_text, symbol_text, name_text, no_symbol, symtab_text, strtab_text, rela_text, relas_texts};

use crate::given::{MakeRela, MakeSymbol};
use crate::numbers::{push_halves, push_words};
use std::alloc::{AllocError, Global};

/// The symbols so far, and their names one after the other.
#[derive(Drop)]
pub struct SymbolTable {
    pub entries: Vec<u8>,
    pub names: Vec<u8>,
}

impl SymbolTable {
    /// Symbol 0 alone, which has no name.
    fn new(alloc: Global) -> Result<SymbolTable, AllocError>
        ensures entries { IfOk result (λ table. table.entries.items ≡ no_symbol) }
        ensures names { IfOk result (λ table. table.names.items ≡ 0 ∷ []) }
    {
        Ok(SymbolTable {
            entries: Vec::from_slice(alloc, &[0; 16])?,
            names: Vec::from_slice(alloc, &[0])?,
        })
    }

    /// Adds a symbol, whose name stands behind those before it.
    fn push(&mut self, symbol: &MakeSymbol) -> Result<(), AllocError>
        requires { length self.old.names.items < 2 ^ 32 }
        ensures entries { OnOk result (self.new.entries.items ≡ self.old.entries.items ++ symbol_text (length self.old.names.items) symbol.now) }
        ensures names { OnOk result (self.new.names.items ≡ self.old.names.items ++ name_text symbol.now) }
        ensures fits { OnOk result (FitsSymbol symbol.now) }
    {
        let name = self.names.len() as u32;
        push_symbol(&mut self.entries, name, symbol)?;
        self.names.extend_from_slice(&symbol.name)?;
        self.names.push(0)?;
        Ok(())
    }
}

/// Adds a symbol whose name stands at an index of the string table.
#[tactic(auto, unfolding(crate::specs::Spelling::symbol_text))]
fn push_symbol(out: &mut Vec<u8>, name: u32, symbol: &MakeSymbol) -> Result<(), AllocError>
    ensures entry { OnOk result (out.new.items ≡ out.old.items ++ symbol_text name symbol.now) }
    ensures fits { OnOk result (FitsSymbol symbol.now) }
{
    push_fields(out, name, symbol.value, symbol.info, symbol.shndx)
}

/// The fields of a symbol, with st_size and st_other 0.
fn push_fields(
    out: &mut Vec<u8>,
    name: u32,
    value: u32,
    info: u8,
    shndx: u16,
) -> Result<(), AllocError>
    ensures entry { OnOk result (out.new.items ≡ out.old.items ++ (words_text (name ∷ value ∷ 0 ∷ []) ++ (info ∷ 0 ∷ halves_text (shndx ∷ [])))) }
    ensures value { value < 2 ^ 32 }
    ensures info { info < 256 }
    ensures shndx { shndx < 2 ^ 16 }
{
    push_words(out, &[name, value, 0])?;
    out.extend_from_slice(&[info, 0])?;
    push_halves(out, &[shndx])
}

/// The symbols behind symbol 0, and their names.
pub fn symbol_table(alloc: Global, symbols: &[MakeSymbol]) -> Result<SymbolTable, AllocError>
    requires { length (strtab_text symbols.now) < 2 ^ 31 }
    ensures entries { IfOk result (λ table. table.entries.items ≡ symtab_text symbols.now) }
    ensures names { IfOk result (λ table. table.names.items ≡ strtab_text symbols.now) }
    ensures fits { OnOk result (All FitsSymbol symbols.now) }
{
    let mut table = SymbolTable::new(alloc)?;
    for symbol in symbols {
        table.push(symbol)?;
    }
    Ok(table)
}

/// Adds an entry, whose r_info is the symbol's index times 256, plus the relocation's type.
#[tactic(auto, unfolding(crate::specs::Spelling::rela_text))]
fn push_rela(out: &mut Vec<u8>, rela: &MakeRela) -> Result<(), AllocError>
    requires { rela.now.symbol < 2 ^ 24 }
    ensures entry { OnOk result (out.new.items ≡ out.old.items ++ rela_text rela.now) }
    ensures fits { OnOk result (FitsRela rela.now) }
{
    let info = 256 * rela.symbol + u32::from(rela.kind);
    push_words(out, &[rela.offset, info, rela.addend.cast_unsigned()])
}

/// For each part the entries of its relocations.
pub fn rela_tables(
    alloc: Global,
    parts: usize,
    relas: &[MakeRela],
) -> Result<Vec<Vec<u8>>, AllocError>
    requires parts { All (λ r. r.part < parts) relas.now }
    requires symbols { All (λ r. r.symbol < 2 ^ 24) relas.now }
    ensures tables { IfOk result (λ tables. map (λ table. table.items) tables.items ≡ relas_texts parts relas.now) }
    ensures fits { OnOk result (All FitsRela relas.now) }
{
    let mut tables = no_tables(alloc, parts)?;
    for rela in relas {
        push_rela(&mut tables[rela.part as usize], rela)?;
    }
    Ok(tables)
}

fn no_tables(alloc: Global, count: usize) -> Result<Vec<Vec<u8>>, AllocError>
    ensures { IfOk result (λ tables. map (λ table. table.items) tables.items ≡ relas_texts count []) }
{
    let mut tables = Vec::new(alloc);
    for _ in 0..count {
        tables.push(Vec::new(alloc))?;
    }
    Ok(tables)
}
