//! The index of a kept section: what its entries need of one another.

ghost use Rattle.std.specs.Prelude.{◌≡◌, ℕ, ◌&&◌, ◌==◌, ◌<◌, true, if◌then◌else◌, None, Some, IfOk, OnOk};
ghost use Rattle.std.specs.Ordering.{nat_cmp};
ghost use Rattle.std.specs.Option.{option_or};
ghost use Rattle.std.specs.BTreeMap as tree;
ghost use Rattle.elf32_reader.specs.Relas.{is_kept, rela_count};
ghost use Rattle.psabi_relocs.specs.declared.row.Width.{Width};
ghost use Rattle.psabi_relocs.specs.Class.{is_moving};
ghost use Rattle.psabi_relocs.specs.Row.{is_high, is_low, is_joined};
ghost use Rattle.psabi_relocs.specs.Reloc.{reloc};
ghost use Rattle.psabi_relocs.specs.Bytes.{holds};
ghost use Rattle.psabi_relocs.specs.Pair.{is_high_at, names};
ghost use Rattle.psabi_relocs.specs.Group.{entry_step};
ghost use Rattle.psabi_relocs.specs.Sums.{sums_or_none, sum_of, CanStep};
ghost use Rattle.psabi_relocs.specs.Firsts.{first_at, high_part};
ghost use Rattle.psabi_relocs.specs.Index.{IsPairs};

use crate::bytes::holds;
use crate::firsts::{Firsts, note};
use crate::group::Sums;
use crate::high::HighPart;
use crate::reloc::{Reloc, reloc_at};
use crate::row::{Row, Shape};
use elf32_reader::{Elf, Section};
use std::alloc::{AllocError, Global};
use std::collections::BTreeMap;

/// A kept section's entries by address.
#[derive(Drop)]
pub struct Pairs {
    /// By place, what low parts need of the first entry with a high part.
    pub(crate) high: Firsts<HighPart>,
    /// By the address that it names, the first low part.
    pub(crate) low: Firsts<u32>,
    /// By place, the sums of the groups.
    pub(crate) sums: BTreeMap<u32, Sums>,
}

/// What the walk over the entries has gathered for `Pairs`.
#[derive(Drop)]
struct Gathered {
    high: Vec<(u32, HighPart)>,
    low: Vec<(u32, u32)>,
    sums: BTreeMap<u32, Sums>,
}

/// Whether entries of a row pair with others, or are steps of a group.
fn is_joined(row: Row) -> bool
    ensures { result ≡ is_joined row }
{
    matches!(
        row,
        Row::GotHi20 | Row::Relative(Shape::High) | Row::Low(_) | Row::Group(_, _)
    )
}

/// Whether an entry has the high part of a pair.
fn has_high(reloc: &Reloc) -> bool
    ensures { result ≡ is_high reloc.now.row }
{
    matches!(reloc.row, Row::GotHi20 | Row::Relative(Shape::High))
}

/// Whether an entry is a low part that names an address.
fn names_address(target: &Section, reloc: &Reloc) -> bool
    ensures { result ≡ (is_low reloc.now.row && reloc.now.addend == 0 && is_moving reloc.now.class && holds target.now reloc.now.place 4) }
{
    matches!(reloc.row, Row::Low(_))
        && reloc.addend == 0
        && reloc.class.is_moving()
        && holds(target, reloc.place, 4)
}

/// Takes in an entry's high part, if it has one.
#[tactic(auto, unfolding(crate::specs::Pair::is_high_at))]
fn note_high(high: &mut Vec<(u32, HighPart)>, reloc: &Reloc) -> Result<(), AllocError>
    ensures { OnOk result ((q : ℕ) →
        first_at high.new.items q ≡ option_or (first_at high.old.items q) (if is_high_at q reloc.now then Some (high_part reloc.now) else None)) }
{
    if has_high(reloc) {
        note(high, reloc.place, reloc.high_part())?;
    }
    Ok(())
}

/// Takes in the address that an entry names as a low part in `target`, if it does.
#[tactic(auto, unfolding(crate::specs::Pair::names))]
fn note_low(
    low: &mut Vec<(u32, u32)>,
    target: &Section,
    reloc: &Reloc,
    entry: u32,
) -> Result<(), AllocError>
    ensures { OnOk result ((q : ℕ) →
        first_at low.new.items q ≡ option_or (first_at low.old.items q) (if names target.now q reloc.now then Some entry else None)) }
{
    if names_address(target, reloc) {
        note(low, reloc.value, entry)?;
    }
    Ok(())
}

/// The sums at a place.
pub fn sums_at(sums: &BTreeMap<u32, Sums>, place: u32) -> Sums
    ensures { result ≡ sums_or_none (tree.get nat_cmp sums.now place) }
{
    match sums.get(&place) {
        Some(found) => *found,
        None => Sums::none(),
    }
}

/// Takes in an entry's step in a group, if it has one.
fn note_step(sums: &mut BTreeMap<u32, Sums>, reloc: &Reloc) -> Result<(), AllocError>
    requires room { (width : Width) → CanStep (sum_of width (sums_or_none (tree.get nat_cmp sums.old reloc.now.place))) }
    ensures { OnOk result ((q : ℕ) (width : Width) →
        sum_of width (sums_or_none (tree.get nat_cmp sums.new q)) ≡ entry_step q width reloc.now (sum_of width (sums_or_none (tree.get nat_cmp sums.old q)))) }
{
    if let Row::Group(width, step) = reloc.row {
        let before = sums_at(sums, reloc.place);
        sums.insert(
            reloc.place,
            before.stepped(width, step, reloc.class.is_moving()),
        )?;
    }
    Ok(())
}

impl Gathered {
    /// Takes in an entry. `target` is the section that it applies to.
    fn note(&mut self, target: &Section, reloc: &Reloc, entry: u32) -> Result<(), AllocError>
        requires room { (width : Width) → CanStep (sum_of width (sums_or_none (tree.get nat_cmp self.old.sums reloc.now.place))) }
        ensures high { OnOk result ((q : ℕ) →
            first_at self.new.high.items q ≡ option_or (first_at self.old.high.items q) (if is_high_at q reloc.now then Some (high_part reloc.now) else None)) }
        ensures low { OnOk result ((q : ℕ) →
            first_at self.new.low.items q ≡ option_or (first_at self.old.low.items q) (if names target.now q reloc.now then Some entry else None)) }
        ensures sums { OnOk result ((q : ℕ) (width : Width) →
            sum_of width (sums_or_none (tree.get nat_cmp self.new.sums q)) ≡ entry_step q width reloc.now (sum_of width (sums_or_none (tree.get nat_cmp self.old.sums q)))) }
    {
        note_high(&mut self.high, reloc)?;
        note_low(&mut self.low, target, reloc, entry)?;
        note_step(&mut self.sums, reloc)
    }

    /// Takes in entry `entry` of the kept section `section`, which applies to `target`. Of an entry that neither pairs nor
    /// groups no more is read than its type.
    fn note_entry(
        &mut self,
        elf: &Elf<'_>,
        section: u32,
        target: &Section,
        entry: u32,
    ) -> Result<(), AllocError>
        requires kept { is_kept elf.now section ≡ true }
        requires entry { entry < rela_count elf.now section }
        requires room { (width : Width) → CanStep (sum_of width (sums_or_none (tree.get nat_cmp self.old.sums (reloc elf.now section entry).place))) }
        ensures high { OnOk result ((q : ℕ) →
            first_at self.new.high.items q ≡ option_or (first_at self.old.high.items q) (if is_high_at q (reloc elf.now section entry) then Some (high_part (reloc elf.now section entry)) else None)) }
        ensures low { OnOk result ((q : ℕ) →
            first_at self.new.low.items q ≡ option_or (first_at self.old.low.items q) (if names target.now q (reloc elf.now section entry) then Some entry else None)) }
        ensures sums { OnOk result ((q : ℕ) (width : Width) →
            sum_of width (sums_or_none (tree.get nat_cmp self.new.sums q)) ≡ entry_step q width (reloc elf.now section entry) (sum_of width (sums_or_none (tree.get nat_cmp self.old.sums q)))) }
    {
        if !is_joined(Row::of(elf.rela(section, entry).kind)) {
            return Ok(());
        }
        self.note(target, &reloc_at(elf, section, entry), entry)
    }
}

impl Pairs {
    /// The index of the kept section `section`. It takes memory for the entries that pair or group alone: at most twelve
    /// bytes for each that pairs, as much again while they are sorted, half a byte for its mark, and one node for all steps of
    /// groups at one place. Where the addresses ascend in the order of the entries, nothing is sorted; else the time is n log n
    /// in the entries. Only out of memory is an `Err`.
    pub fn of(alloc: Global, elf: &Elf<'_>, section: u32) -> Result<Pairs, AllocError>
        requires kept { is_kept elf.now section ≡ true }
        ensures { IfOk result (λ pairs. IsPairs elf.now section pairs) }
    {
        let target = elf.section(elf.section(section).info);
        let mut gathered = Gathered {
            high: Vec::new(alloc),
            low: Vec::new(alloc),
            sums: BTreeMap::new(alloc),
        };
        for entry in 0..elf.relas(section) {
            gathered.note_entry(elf, section, &target, entry)?;
        }
        Ok(Pairs {
            high: Firsts::of(gathered.high)?,
            low: Firsts::of(gathered.low)?,
            sums: gathered.sums,
        })
    }
}
