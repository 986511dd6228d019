//! The index of the stored sections of an image.

ghost use Rattle.std.specs.Prelude.{◌≡◌, ℕ, ◌&&◌, ◌==◌, ◌<◌, ◌≤◌, if◌then◌else◌, true, None, Some, IfOk, OnOk, MatchOption};
ghost use Rattle.std.specs.Ordering.{nat_cmp};
ghost use Rattle.std.specs.Option.{option_or};
ghost use Rattle.std.specs.BTreeMap as tree;
ghost use Rattle.elf32_reader.specs.Header.{count_of};
ghost use Rattle.elf32_reader.specs.Sections.{section};
ghost use Rattle.flat_layout.specs.Numbering.{has_bytes};
ghost use Rattle.flat_layout.specs.Rows.{has_numbers};
ghost use Rattle.psabi_relocs.specs.Search.{first_below};
ghost use Rattle.psabi_relocs.specs.Slot.{holds_slot, slot_section};
ghost use Rattle.psabi_relocs.specs.Index.{AreStored};

use crate::bytes::{WORD_LEN, holds};
use elf32_reader::{Elf, Section};
use flat_layout::has_bytes;
use std::alloc::{AllocError, Global};
use std::collections::BTreeMap;
use std::collections::btree_map::Entry;

/// The sections of the image with bytes in the file, by address.
#[derive(Drop)]
pub struct StoredSections {
    /// By first address, the index of the section.
    pub(crate) firsts: BTreeMap<u32, u32>,
}

/// Gives `address` the index, unless it has one.
fn note_first(firsts: &mut BTreeMap<u32, u32>, address: u32, index: u32) -> Result<(), AllocError>
    ensures { OnOk result ((q : ℕ) →
        tree.get nat_cmp firsts.new q ≡ option_or (tree.get nat_cmp firsts.old q) (if address == q then Some index else None)) }
{
    match firsts.entry(address)? {
        Entry::Occupied(_) => {}
        Entry::Vacant(free) => {
            free.insert(index);
        }
    }
    Ok(())
}

/// Takes in a section of the image with bytes in the file.
fn note_section(
    firsts: &mut BTreeMap<u32, u32>,
    section: &Section,
    index: u32,
) -> Result<(), AllocError>
    ensures { OnOk result ((q : ℕ) →
        tree.get nat_cmp firsts.new q ≡ option_or (tree.get nat_cmp firsts.old q) (if has_bytes section.now && section.now.addr == q then Some index else None)) }
{
    if has_bytes(section) {
        note_first(firsts, section.addr, index)?;
    }
    Ok(())
}

/// Whether the section is one of the image with the four bytes at an address.
#[tactic(auto, unfolding(crate::specs::Slot::holds_slot))]
fn holds_slot(address: u32, section: &Section) -> bool
    ensures { result ≡ holds_slot address section.now }
{
    has_bytes(section) && holds(section, address, WORD_LEN)
}

/// What the greatest address up to `address` has.
fn at_or_below(firsts: &BTreeMap<u32, u32>, address: u32) -> Option<u32>
    ensures { MatchOption result
        ((q : ℕ) → q ≤ address → tree.get nat_cmp firsts.now q ≡ None)
        (λ index. (first : ℕ) × (first ≤ address) × (tree.get nat_cmp firsts.now first ≡ Some index)
        × ((q : ℕ) → q ≤ address → first < q → tree.get nat_cmp firsts.now q ≡ None)) }
{
    match firsts.range(..=address).next_back() {
        Some((_, index)) => Some(*index),
        None => None,
    }
}

impl StoredSections {
    /// The stored sections of a file. It takes memory for one node a section, and n log n time. Only out of
    /// memory is an `Err`.
    pub fn of(alloc: Global, elf: &Elf<'_>) -> Result<StoredSections, AllocError>
        ensures { IfOk result (λ stored. AreStored elf.now stored) }
    {
        let mut firsts = BTreeMap::new(alloc);
        for index in 0..elf.sections() {
            note_section(&mut firsts, &elf.section(index), index)?;
        }
        Ok(StoredSections { firsts })
    }

    /// The section that holds the four bytes at an address.
    pub(crate) fn slot_section(&self, elf: &Elf<'_>, address: u32) -> Option<u32>
        requires numbers { has_numbers elf.now ≡ true }
        requires stored { AreStored elf.now self.now }
        ensures { result ≡ slot_section elf.now address }
    {
        let index = at_or_below(&self.firsts, address)?;
        if holds_slot(address, &elf.section(index)) {
            Some(index)
        } else {
            None
        }
    }
}
