//! Sections and symbols by name.

ghost use Rattle.std.specs.Prelude.{◌≡◌, ◌<◌, ◌++◌, true, IfOk};
ghost use Rattle.elf32_reader.specs.Header.{count_of};
ghost use Rattle.elf32_reader.specs.Symbols.{is_symtab, symbol_count};
ghost use Rattle.fault_texts.specs.Symbols.{section_text, names_section, is_of_section, symbol_text, reserved_text, index_text, home_text};

use crate::names::{NAME_LIMIT, push_name_or};
use call_log::push_decimal;
use elf32_reader::{Elf, Symbol};
use std::alloc::AllocError;

/// The type of a section's own symbol.
const STT_SECTION: u8 = 3;
/// The index of no section.
const SHN_UNDEF: u16 = 0;
/// The index of a symbol that is no place.
const SHN_ABS: u16 = 0xfff1;
/// The index of a symbol that a linker still has to place.
const SHN_COMMON: u16 = 0xfff2;

/// A section by its name, behind a text.
#[tactic(auto, using(crate::proofs::Starts::name_or_start), unfolding(crate::specs::Symbols::section_text))]
pub fn push_section(text: &mut Vec<u8>, elf: &Elf<'_>, index: u32) -> Result<(), AllocError>
    requires { index < count_of elf.now }
    ensures { IfOk result (λ _. text.new.items ≡ text.old.items ++ section_text elf.now index) }
{
    push_name_or(text, b'#', index, elf.section_name_start(index, NAME_LIMIT))
}

/// Whether an index is that of a section, and not 0.
fn names_section(elf: &Elf<'_>, index: u16) -> bool
    ensures { result ≡ names_section elf.now index }
{
    index != SHN_UNDEF && u32::from(index) < elf.sections()
}

fn is_of_section(elf: &Elf<'_>, symbol: &Symbol) -> bool
    ensures { result ≡ is_of_section elf.now symbol.now }
{
    symbol.info % 16 == STT_SECTION && names_section(elf, symbol.shndx)
}

/// A symbol by its name, behind a text.
#[tactic(auto, using(crate::proofs::Starts::name_or_start), unfolding(crate::specs::Symbols::symbol_text))]
pub fn push_symbol(
    text: &mut Vec<u8>,
    elf: &Elf<'_>,
    table: u32,
    index: u32,
) -> Result<(), AllocError>
    requires table { is_symtab elf.now table ≡ true }
    requires index { index < symbol_count elf.now table }
    ensures { IfOk result (λ _. text.new.items ≡ text.old.items ++ symbol_text elf.now table index) }
{
    if index == 0 {
        return text.extend_from_slice(b"-");
    }
    let symbol = elf.symbol(table, index);
    if is_of_section(elf, &symbol) {
        push_section(text, elf, u32::from(symbol.shndx))
    } else {
        push_name_or(text, b'@', index, elf.name_start(table, index, NAME_LIMIT))
    }
}

fn push_reserved(text: &mut Vec<u8>, index: u16) -> Result<(), AllocError>
    ensures { IfOk result (λ _. text.new.items ≡ text.old.items ++ reserved_text index) }
{
    match index {
        SHN_ABS => text.extend_from_slice(b"*ABS*"),
        SHN_COMMON => text.extend_from_slice(b"*COM*"),
        _ => {
            text.push(b'#')?;
            push_decimal(text, u64::from(index))
        }
    }
}

fn push_index(text: &mut Vec<u8>, elf: &Elf<'_>, index: u16) -> Result<(), AllocError>
    ensures { IfOk result (λ _. text.new.items ≡ text.old.items ++ index_text elf.now index) }
{
    if index == SHN_UNDEF {
        text.extend_from_slice(b"*UND*")
    } else if u32::from(index) < elf.sections() {
        push_section(text, elf, u32::from(index))
    } else {
        push_reserved(text, index)
    }
}

/// Where a symbol stands, behind a text.
#[tactic(auto, unfolding(crate::specs::Symbols::home_text))]
pub fn push_home(
    text: &mut Vec<u8>,
    elf: &Elf<'_>,
    table: u32,
    index: u32,
) -> Result<(), AllocError>
    requires table { is_symtab elf.now table ≡ true }
    requires index { index < symbol_count elf.now table }
    ensures { IfOk result (λ _. text.new.items ≡ text.old.items ++ home_text elf.now table index) }
{
    if index == 0 {
        text.extend_from_slice(b"-")
    } else {
        push_index(text, elf, elf.symbol(table, index).shndx)
    }
}
