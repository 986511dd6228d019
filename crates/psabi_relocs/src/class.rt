//! The classes of symbols (System V ABI, ELF32, "Symbol Table").

ghost use Rattle.std.specs.Prelude.{◌≡◌, ◌<◌, true};
ghost use Rattle.elf32_reader.specs.Symbols.{is_symtab, symbol_count};
ghost use Rattle.psabi_relocs.specs.Class.{names_allocated, undefined_class, absolute_class, class, is_moving, value_of};

use elf32_reader::{Elf, Symbol};

/// The index of no section.
const SHN_UNDEF: u16 = 0;
/// The index that marks an absolute symbol.
const SHN_ABS: u16 = 0xfff1;
/// The binding of a weak symbol.
const STB_WEAK: u8 = 2;
/// The absolute symbol that is taken to stand at a fixed distance from the sections: this project's
/// own rule.
const GLOBAL_POINTER: &[u8] = b"__global_pointer$";
/// As much of a name as tells it from that one: a byte more than it has.
const NAME_LIMIT: usize = 18;

/// What a symbol's value does when the image moves.
#[derive(Clone, Copy)]
pub enum Class {
    /// It moves with the sections.
    Moves,
    /// It stands still.
    Fixed,
    /// A weak symbol that no file defines: 0, wherever the image is.
    Weak,
    /// No file defines it.
    Undefined,
    /// It belongs to a section that isn't loaded, or to none.
    Bad,
}

fn undefined_symbol(symbol: &Symbol) -> Class
    ensures { result ≡ undefined_class symbol.now }
{
    if symbol.info >> 4 == STB_WEAK {
        Class::Weak
    } else {
        Class::Undefined
    }
}

/// The class of an absolute symbol, from the first `NAME_LIMIT` bytes of its name.
fn absolute_symbol(name_start: &[u8]) -> Class
    ensures { result ≡ absolute_class name_start.now }
{
    if name_start == GLOBAL_POINTER {
        Class::Moves
    } else {
        Class::Fixed
    }
}

/// Whether the index is that of a section that is loaded.
fn is_loaded(elf: &Elf<'_>, index: u16) -> bool
    ensures { result ≡ names_allocated elf.now index }
{
    let index = u32::from(index);
    index < elf.sections() && elf.section(index).is_allocated()
}

/// The class of a symbol, given by the section index of its table and its own.
#[tactic(auto, unfolding(crate::specs::Class::class))]
#[inline(always)]
pub fn class_of(elf: &Elf<'_>, table: u32, symbol: u32) -> Class
    requires table { is_symtab elf.now table ≡ true }
    requires symbol { symbol < symbol_count elf.now table }
    ensures { result ≡ class elf.now table symbol }
{
    if symbol == 0 {
        return Class::Fixed;
    }
    let entry = elf.symbol(table, symbol);
    match entry.shndx {
        SHN_UNDEF => undefined_symbol(&entry),
        SHN_ABS => absolute_symbol(elf.name_start(table, symbol, NAME_LIMIT)),
        index if is_loaded(elf, index) => Class::Moves,
        _ => Class::Bad,
    }
}

impl Class {
    /// Whether the value moves with the sections.
    pub fn is_moving(self) -> bool
        ensures { result ≡ is_moving self }
    {
        matches!(self, Class::Moves)
    }
}

/// S: the stored value of a symbol, but 0 for the symbol of index 0 and for a weak undefined one.
#[tactic(auto, unfolding(crate::specs::Class::value_of))]
pub fn value_at(elf: &Elf<'_>, table: u32, symbol: u32, symbol_class: Class) -> u32
    requires table { is_symtab elf.now table ≡ true }
    requires symbol { symbol < symbol_count elf.now table }
    requires class { symbol_class ≡ class elf.now table symbol }
    ensures { result ≡ value_of elf.now table symbol }
{
    let entry = elf.symbol(table, symbol);
    match symbol_class {
        Class::Weak => 0,
        Class::Fixed if symbol == 0 => 0,
        _ => entry.value,
    }
}
