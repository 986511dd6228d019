//! Which symbol stands around a place.

ghost use Rattle.std.specs.Prelude.{◌≡◌, ◌^◌, ◌<◌, ◌≤◌, ◌++◌, true, option_map, IfOk, OnOk};
ghost use Rattle.std.specs.List.Sorted.{IsNonDecreasingBy};
ghost use Rattle.elf32_reader.specs.Accepted.{IsAccepted};
ghost use Rattle.elf32_reader.specs.Symbols.{is_symtab, symbol_count, name_of};
ghost use Rattle.psabi_relocs.specs.Around.{is_source, is_told, reaches};
ghost use Rattle.psabi_relocs.specs.Spots.{place_order, order_of, spot_if_told, last_under, found, IsAroundOf};

use elf32_reader::Elf;
use std::alloc::{AllocError, Global};
use std::marker::Model;

/// The greatest type of a symbol that is told: STT_FUNC. Below it are STT_NOTYPE and STT_OBJECT.
const STT_FUNC: u8 = 2;
/// How many values there are.
const VALUES: u128 = 1 << 32;
/// How many spots there may be at one place: of each index and type.
const SPOTS: u128 = 1 << 34;

/// Where a symbol stands.
#[derive(Clone, Copy)]
pub struct Spot {
    /// The index of its section.
    pub section: u16,
    pub value: u32,
    /// In bytes.
    pub size: u32,
    /// Its type.
    pub kind: u8,
    /// Its index in the table.
    pub index: u32,
}

/// A place of a section as a number.
fn place_order(section: u32, value: u64) -> u128
    requires { value ≤ 2 ^ 32 }
    ensures { result ≡ place_order section value }
{
    (u128::from(section) * VALUES + u128::from(value)) * SPOTS
}

impl Spot {
    /// A number that is the greater the rather the symbol is told.
    fn order(&self) -> u128
        ensures { result ≡ order_of self.now }
    {
        place_order(u32::from(self.section), u64::from(self.value))
            + u128::from(self.kind) * VALUES
            + u128::from(u32::MAX - self.index)
    }

    /// Whether a place isn't behind the symbol's end.
    fn reaches(&self, place: u32) -> bool
        ensures { result ≡ reaches self.now.value self.now.size place }
    {
        self.size == 0 || u64::from(place) < u64::from(self.value) + u64::from(self.size)
    }
}

/// The symbols of a table that can be told as what stands around a place, by section and value. Contracts see the list of
/// their spots.
#[derive(Drop)]
pub struct Around {
    spots: Vec<Spot>,
}

impl Model for Around {
    ghost use Rattle.std.specs.Prelude.{List};
    ghost use Rattle.std.specs.List.Sorted.{IsNonDecreasingBy};
    ghost use Rattle.psabi_relocs.specs.declared.around.Spot.{Spot};
    ghost use Rattle.psabi_relocs.specs.Spots.{order_of};

    ghost Value = { List Spot };

    ghost view = { λ s. s.spots.items };

    ghost invariant = { λ s. IsNonDecreasingBy order_of s.spots.items };
}

/// Whether a symbol has a name of the source.
pub fn has_source_name(elf: &Elf<'_>, table: u32, index: u32) -> bool
    requires table { is_symtab elf.now table ≡ true }
    requires index { index < symbol_count elf.now table }
    ensures { result ≡ is_source (name_of elf.now table index) }
{
    match elf.name_start(table, index, 1) {
        [first, ..] => *first != b'.' && *first != b'$',
        [] => false,
    }
}

/// Whether a symbol can be told as what stands around a place.
#[tactic(auto, unfolding(crate::specs::Around::is_told))]
fn is_told(elf: &Elf<'_>, table: u32, index: u32) -> bool
    requires table { is_symtab elf.now table ≡ true }
    requires index { index < symbol_count elf.now table }
    ensures { result ≡ is_told elf.now table index }
{
    index != 0
        && elf.symbol(table, index).info % 16 <= STT_FUNC
        && has_source_name(elf, table, index)
}

/// Takes in a symbol, if it can be told.
fn note_symbol(
    spots: &mut Vec<Spot>,
    elf: &Elf<'_>,
    table: u32,
    index: u32,
) -> Result<(), AllocError>
    requires table { is_symtab elf.now table ≡ true }
    requires index { index < symbol_count elf.now table }
    ensures { OnOk result (spots.new.items ≡ spots.old.items ++ spot_if_told elf.now table index) }
{
    if is_told(elf, table, index) {
        let symbol = elf.symbol(table, index);
        spots.push(Spot {
            section: symbol.shndx,
            value: symbol.value,
            size: symbol.size,
            kind: symbol.info % 16,
            index,
        })?;
    }
    Ok(())
}

/// The last of the spots below a number. They ascend.
fn last_under(spots: &[Spot], order: u128) -> Option<&Spot>
    requires { IsNonDecreasingBy order_of spots.now }
    ensures { option_map (λ spot. spot.now) result ≡ last_under spots.now order }
{
    let under = spots.partition_point(|spot| spot.order() < order);
    if under == 0 {
        None
    } else {
        Some(&spots[under - 1])
    }
}

/// The number of symbols of a table.
#[tactic(auto, using(elf32_reader::proofs::Places::is_symtab_below))]
fn symbols_of(elf: &Elf<'_>, table: u32) -> u32
    requires { is_symtab elf.now table ≡ true }
    ensures accepted { IsAccepted elf.now }
    ensures count { result ≡ symbol_count elf.now table }
{
    if table < elf.sections() {
        elf.symbols(table)
    } else {
        0
    }
}

impl Around {
    /// The symbols of a symbol table, given by its section index. It takes 16 bytes for each that can be told, and n log n
    /// time, however many have one value. Only out of memory is an `Err`.
    pub fn of(alloc: Global, elf: &Elf<'_>, table: u32) -> Result<Around, AllocError>
        requires { is_symtab elf.now table ≡ true }
        ensures { IfOk result (λ around. IsAroundOf elf.now table around) }
    {
        let mut spots = Vec::new(alloc);
        for index in 0..symbols_of(elf, table) {
            note_symbol(&mut spots, elf, table, index)?;
        }
        spots.sort_by_key(|spot| spot.order())?;
        Ok(Around { spots })
    }

    /// The index of the symbol around a place of a section. The time is the logarithm of the number of symbols.
    pub fn find(&self, section: u32, place: u32) -> Option<u32>
        ensures { result ≡ found self.now section place }
    {
        let spot = last_under(&self.spots, place_order(section, u64::from(place) + 1))?;
        if u32::from(spot.section) == section && spot.reaches(place) {
            Some(spot.index)
        } else {
            None
        }
    }
}
