//! The rows of faults that speak of sections, of each that they hold of.

ghost use Rattle.std.specs.Prelude.{◌≡◌, ◌<◌, ◌≤◌, ◌++◌, [], ◌∷◌, map, if◌then◌else◌, Some, IfOk, OnOk};
ghost use Rattle.elf32_reader.specs.Header.{count_of};
ghost use Rattle.elf32_reader.specs.Sections.{section};
ghost use Rattle.elf32_reader.specs.Faults.{section_fault};
ghost use Rattle.elf32_reader.specs.Heads as heads_specs;
ghost use Rattle.elf32_reader.specs.Heads.{IsInFile};
ghost use Rattle.flat_layout.specs.Fault.{meets, is_entry_outside};
ghost use Rattle.flat_layout.specs.Rows.{row_holds};
ghost use Rattle.psabi_relocs.specs.Search.{first_below};
ghost use Rattle.elf2flt_tool.specs.Faults.{elf_in, row_of, layout_in, overlap_in, found_or_0, sections_with, section_faults, layout_faults};
ghost use Rattle.elf2flt_tool.specs.Noted.{if_passes};

use crate::fault::Fault;
use elf32_reader::{Elf, ElfFault, Heads};
use flat_layout::{LayoutFault, has_sections, holds, is_entry_outside, meets};
use std::alloc::{AllocError, Global};

/// The number of the row `LayoutFault::TooLarge`.
const TOO_LARGE: u32 = 2;
/// That of the row `LayoutFault::Overlap`.
const OVERLAP: u32 = 3;
/// That of the row `LayoutFault::Dynamic`.
const DYNAMIC: u32 = 4;
/// That of the row `LayoutFault::Tls`.
const TLS: u32 = 5;

/// The number of a row of `ElfFault` that speaks of sections.
fn row_of(fault: ElfFault) -> u32
    ensures value { result ≡ row_of fault }
    ensures from { 10 ≤ result }
    ensures to { result ≤ 12 }
{
    match fault {
        ElfFault::SectionRange => 10,
        ElfFault::SymbolRange => 11,
        _ => 12,
    }
}

/// Adds a section, if a row of `ElfFault` holds of it.
fn add_head(
    faults: &mut Vec<Fault>,
    heads: &Heads<'_>,
    row: u32,
    fault: ElfFault,
    section: u32,
) -> Result<(), AllocError>
    requires from { 10 ≤ row }
    requires to { row ≤ 12 }
    requires in_file { IsInFile row heads.now }
    requires section { section < count_of heads.now }
    ensures { OnOk result (faults.new.items ≡ faults.old.items ++ map (elf_in fault) (if_passes (heads_specs.row_holds row heads.now) section)) }
{
    if heads.holds(row, section) {
        faults.push(Fault::Elf {
            fault,
            section,
            other: 0,
        })?;
    }
    Ok(())
}

/// Each section that the first fault of a file holds of, where its header has none.
pub fn section_faults(
    alloc: Global,
    heads: &Heads<'_>,
    fault: ElfFault,
) -> Result<Vec<Fault>, AllocError>
    requires { section_fault heads.now ≡ Some fault }
    ensures { IfOk result (λ faults. faults.items ≡ section_faults heads.now (Some fault)) }
{
    let row = row_of(fault);
    let mut faults = Vec::new(alloc);
    for section in 0..heads.sections() {
        add_head(&mut faults, heads, row, fault, section)?;
    }
    Ok(faults)
}

/// Adds a section, if a row of `LayoutFault` holds of it.
fn add_section(
    faults: &mut Vec<Fault>,
    elf: &Elf<'_>,
    row: u32,
    fault: LayoutFault,
    section: u32,
) -> Result<(), AllocError>
    requires from { 2 ≤ row }
    requires to { row ≤ 5 }
    requires section { section < count_of elf.now }
    ensures { OnOk result (faults.new.items ≡ faults.old.items ++ map (layout_in fault) (if_passes (row_holds row elf.now) section)) }
{
    if holds(elf, row, section) {
        faults.push(Fault::Layout {
            fault,
            section,
            other: 0,
        })?;
    }
    Ok(())
}

/// Adds each section that a row of `LayoutFault` holds of.
fn add_row(
    faults: &mut Vec<Fault>,
    elf: &Elf<'_>,
    row: u32,
    fault: LayoutFault,
) -> Result<(), AllocError>
    requires from { 2 ≤ row }
    requires to { row ≤ 5 }
    ensures { OnOk result (faults.new.items ≡ faults.old.items ++ map (layout_in fault) (sections_with (row_holds row elf.now) elf.now)) }
{
    for section in 0..elf.sections() {
        add_section(faults, elf, row, fault, section)?;
    }
    Ok(())
}

/// The first section that a section has a byte in common with, of those before it; 0 where there is none.
fn first_met(elf: &Elf<'_>, index: u32) -> u32
    requires { index < count_of elf.now }
    ensures { result ≡ found_or_0 (first_below (λ j. meets (section elf.now j) (section elf.now index)) index) }
{
    let section = elf.section(index);
    for other in 0..index {
        if meets(&elf.section(other), &section) {
            return other;
        }
    }
    0
}

/// Adds a section that meets an earlier one, with the first of these.
fn add_overlap(faults: &mut Vec<Fault>, elf: &Elf<'_>, section: u32) -> Result<(), AllocError>
    requires { section < count_of elf.now }
    ensures { OnOk result (faults.new.items ≡ faults.old.items ++ map (overlap_in elf.now) (if_passes (row_holds 3 elf.now) section)) }
{
    if holds(elf, OVERLAP, section) {
        faults.push(Fault::Layout {
            fault: LayoutFault::Overlap,
            section,
            other: first_met(elf, section),
        })?;
    }
    Ok(())
}

/// Adds each section that meets an earlier one.
fn add_overlapping(faults: &mut Vec<Fault>, elf: &Elf<'_>) -> Result<(), AllocError>
    ensures { OnOk result (faults.new.items ≡ faults.old.items ++ map (overlap_in elf.now) (sections_with (row_holds 3 elf.now) elf.now)) }
{
    for section in 0..elf.sections() {
        add_overlap(faults, elf, section)?;
    }
    Ok(())
}

/// Adds that the program begins at no whole instruction of stored code, if it does.
fn add_outside(faults: &mut Vec<Fault>, elf: &Elf<'_>) -> Result<(), AllocError>
    ensures { OnOk result (faults.new.items ≡ faults.old.items ++ (if is_entry_outside elf.now then layout_in LayoutFault.EntryOutside 0 ∷ [] else [])) }
{
    if is_entry_outside(elf) {
        faults.push(Fault::Layout {
            fault: LayoutFault::EntryOutside,
            section: 0,
            other: 0,
        })?;
    }
    Ok(())
}

/// The faults of the sections' layout, by row and section.
pub fn layout_faults(alloc: Global, elf: &Elf<'_>) -> Result<Vec<Fault>, AllocError>
    ensures { IfOk result (λ faults. faults.items ≡ layout_faults elf.now) }
{
    let mut faults = Vec::new(alloc);
    if !has_sections(elf) {
        faults.push(Fault::Layout {
            fault: LayoutFault::NoSections,
            section: 0,
            other: 0,
        })?;
        return Ok(faults);
    }
    add_row(&mut faults, elf, TOO_LARGE, LayoutFault::TooLarge)?;
    add_overlapping(&mut faults, elf)?;
    add_row(&mut faults, elf, DYNAMIC, LayoutFault::Dynamic)?;
    add_row(&mut faults, elf, TLS, LayoutFault::Tls)?;
    add_outside(&mut faults, elf)?;
    Ok(faults)
}
