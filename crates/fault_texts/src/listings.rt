//! All faults of a file as a text.

ghost use Rattle.std.specs.Prelude.{◌≡◌, ◌++◌, take, length, codes, decimal, Some, IfOk};
ghost use Rattle.std.specs.List.{flat_map};
ghost use Rattle.elf32_reader.specs.Faults.{elf_fault};
ghost use Rattle.elf2flt_tool.specs.declared.fault.Fault.TheVariants as every;
ghost use Rattle.elf2flt_tool.specs.Faults.{faults};
ghost use Rattle.fault_texts.specs.Lines.{fault_line};
ghost use Rattle.fault_texts.specs.Counts.{kind_lines};
ghost use Rattle.fault_texts.specs.InFile.{IsEntry, IsOfRead, AreOfRead, IsOfHeads, AreOfHeads};
ghost use Rattle.fault_texts.specs.Listing.{in_line, to_line, most_lines, in_counts, to_counts, listing};

use crate::count_lines::{push_in_lines, push_to_lines};
use crate::counts::counts_of;
use crate::entry::EntryAt;
use crate::kinds::push_kinds;
use crate::lines::{
    push_head_line, push_header_line, push_layout_line, push_number, push_overlap_line,
    push_reloc_line, push_target_line,
};
use crate::sights::Sights;
use crate::subjects::{in_subjects, to_subjects};
use elf2flt_tool::Fault;
use elf32_reader::{Elf, ElfFault, Heads};
use psabi_relocs::RelocFault;
use std::alloc::{AllocError, Global};

/// The most lines of faults, of counts by place, and of counts by symbol.
const MOST_LINES: usize = 65_536;

/// As many of these as have a line.
fn written<T>(items: &[T]) -> &[T]
    ensures { result.now ≡ take most_lines items.now }
{
    items.split_at(MOST_LINES.min(items.len())).0
}

/// The line of a fault of an entry by itself.
fn push_reloc(
    text: &mut Vec<u8>,
    sights: &mut Sights<'_>,
    fault: RelocFault,
    entry: EntryAt,
) -> Result<(), AllocError>
    requires { IsEntry sights.old entry.section entry.index }
    ensures same { sights.new ≡ sights.old }
    ensures line { IfOk result (λ _. text.new.items ≡ text.old.items ++ fault_line sights.old (every.Reloc entry.section entry.index fault)) }
{
    let sight = sights.sight(entry)?;
    push_reloc_line(text, sights.elf(), fault, entry, &sight)
}

/// The line of a word that points outside.
fn push_target(
    text: &mut Vec<u8>,
    sights: &mut Sights<'_>,
    place: u32,
    entry: EntryAt,
) -> Result<(), AllocError>
    requires { IsEntry sights.old entry.section entry.index }
    ensures same { sights.new ≡ sights.old }
    ensures line { IfOk result (λ _. text.new.items ≡ text.old.items ++ fault_line sights.old (every.TargetOutside place entry.section entry.index)) }
{
    let sight = sights.sight(entry)?;
    push_target_line(text, sights.elf(), place, entry, &sight)
}

/// The line of a word that overlaps.
fn push_overlap(
    text: &mut Vec<u8>,
    sights: &mut Sights<'_>,
    place: u32,
    entry: EntryAt,
) -> Result<(), AllocError>
    requires { IsEntry sights.old entry.section entry.index }
    ensures same { sights.new ≡ sights.old }
    ensures line { IfOk result (λ _. text.new.items ≡ text.old.items ++ fault_line sights.old (every.WordOverlap place entry.section entry.index)) }
{
    let sight = sights.sight(entry)?;
    push_overlap_line(text, sights.elf(), place, entry, &sight)
}

/// The line of a fault of a file that was read.
fn push_line(text: &mut Vec<u8>, sights: &mut Sights<'_>, fault: &Fault) -> Result<(), AllocError>
    requires { IsOfRead sights.old fault.now }
    ensures same { sights.new ≡ sights.old }
    ensures line { IfOk result (λ _. text.new.items ≡ text.old.items ++ fault_line sights.old fault.now) }
{
    match *fault {
        Fault::Elf { .. } => unreachable!(),
        Fault::Layout {
            fault,
            section,
            other,
        } => push_layout_line(text, sights.elf(), fault, section, other),
        Fault::Reloc {
            section,
            index,
            fault,
        } => push_reloc(text, sights, fault, EntryAt { section, index }),
        Fault::TargetOutside {
            place,
            section,
            index,
        } => push_target(text, sights, place, EntryAt { section, index }),
        Fault::WordOverlap {
            place,
            section,
            index,
        } => push_overlap(text, sights, place, EntryAt { section, index }),
    }
}

/// The lines of faults of a file that was read.
fn push_lines(
    text: &mut Vec<u8>,
    sights: &mut Sights<'_>,
    found: &[Fault],
) -> Result<(), AllocError>
    requires { AreOfRead sights.old found.now }
    ensures same { sights.new ≡ sights.old }
    ensures lines { IfOk result (λ _. text.new.items ≡ text.old.items ++ flat_map (fault_line sights.old) found.now) }
{
    for fault in found {
        push_line(text, sights, fault)?;
    }
    Ok(())
}

/// How many faults stand around each symbol.
fn push_in_counts(
    alloc: Global,
    text: &mut Vec<u8>,
    sights: &mut Sights<'_>,
    found: &[Fault],
) -> Result<(), AllocError>
    requires { AreOfRead sights.old found.now }
    ensures same { sights.new ≡ sights.old }
    ensures lines { IfOk result (λ _. text.new.items ≡ text.old.items ++ flat_map (in_line sights.old) (take most_lines (in_counts sights.old found.now))) }
{
    let subjects = in_subjects(alloc, sights, found)?;
    let counts = counts_of(alloc, subjects)?;
    push_in_lines(text, sights.elf(), written(&counts))
}

/// How many faults mean each symbol.
fn push_to_counts(
    alloc: Global,
    text: &mut Vec<u8>,
    sights: &mut Sights<'_>,
    found: &[Fault],
) -> Result<(), AllocError>
    requires { AreOfRead sights.old found.now }
    ensures same { sights.new ≡ sights.old }
    ensures lines { IfOk result (λ _. text.new.items ≡ text.old.items ++ flat_map (to_line sights.old) (take most_lines (to_counts sights.old found.now))) }
{
    let subjects = to_subjects(alloc, sights, found)?;
    let counts = counts_of(alloc, subjects)?;
    push_to_lines(text, sights.elf(), written(&counts))
}

/// How many faults there are of each kind, and of all.
fn push_numbers(text: &mut Vec<u8>, found: &[Fault]) -> Result<(), AllocError>
    ensures { IfOk result (λ _. text.new.items ≡ text.old.items ++ kind_lines found.now ++ codes "faults " ++ decimal (length found.now) ++ codes "\n") }
{
    push_kinds(text, found)?;
    push_number(text, b"faults ", found.len() as u64)?;
    text.push(b'\n')?;
    Ok(())
}

/// All faults of a file that was read.
#[tactic(auto, unfolding(crate::specs::Listing::listing))]
fn push_read(
    alloc: Global,
    text: &mut Vec<u8>,
    elf: &Elf<'_>,
    found: &[Fault],
) -> Result<(), AllocError>
    requires { AreOfRead elf.now found.now }
    ensures { IfOk result (λ _. text.new.items ≡ text.old.items ++ listing elf.now found.now) }
{
    let mut sights = Sights::of(alloc, elf)?;
    push_lines(text, &mut sights, written(found))?;
    push_in_counts(alloc, text, &mut sights, found)?;
    push_to_counts(alloc, text, &mut sights, found)?;
    push_numbers(text, found)
}

/// The line of a fault of section headers.
#[tactic(auto, unfolding(crate::specs::Lines::fault_line))]
fn push_found_head(text: &mut Vec<u8>, heads: &Heads<'_>, fault: &Fault) -> Result<(), AllocError>
    requires { IsOfHeads heads.now fault.now }
    ensures { IfOk result (λ _. text.new.items ≡ text.old.items ++ fault_line heads.now fault.now) }
{
    match *fault {
        Fault::Elf { fault, section, .. } => push_head_line(text, heads, fault, section),
        _ => unreachable!(),
    }
}

/// The lines of faults of section headers.
fn push_head_lines(text: &mut Vec<u8>, heads: &Heads<'_>, found: &[Fault]) -> Result<(), AllocError>
    requires { AreOfHeads heads.now found.now }
    ensures { IfOk result (λ _. text.new.items ≡ text.old.items ++ flat_map (fault_line heads.now) found.now) }
{
    for fault in found {
        push_found_head(text, heads, fault)?;
    }
    Ok(())
}

/// All faults of a file that can't be read: they have no symbols.
fn push_unread(
    text: &mut Vec<u8>,
    bytes: &[u8],
    fault: ElfFault,
    found: &[Fault],
) -> Result<(), AllocError>
    requires fault { elf_fault bytes.now ≡ Some fault }
    requires found { found.now ≡ faults bytes.now }
    ensures { IfOk result (λ _. text.new.items ≡ text.old.items ++ listing bytes.now found.now) }
{
    match Heads::of(bytes) {
        Some(heads) => push_head_lines(text, &heads, written(found))?,
        None => push_header_line(text, bytes, fault)?,
    }
    push_numbers(text, found)
}

/// All faults of a file, as `elf2flt_tool::faults` has them: a line for each of them, and counts by place, by symbol and by kind.
/// At most 65,536 lines of faults, of places and of symbols are written; the numbers count all of them.
///
/// The time is n log n in the faults and in the symbols of the tables that they speak of, beside the text. Beside the text and the
/// index of these tables it takes at most 64 bytes for a fault, for the time of the call.
///
/// # Errors
///
/// Only out of memory is an `Err`.
pub fn listing(alloc: Global, bytes: &[u8], found: &[Fault]) -> Result<Vec<u8>, AllocError>
    requires { found.now ≡ faults bytes.now }
    ensures { IfOk result (λ text. text.items ≡ listing bytes.now (faults bytes.now)) }
{
    let mut text = Vec::new(alloc);
    match Elf::read(bytes) {
        Ok(elf) => push_read(alloc, &mut text, &elf, found)?,
        Err(fault) => push_unread(&mut text, bytes, fault, found)?,
    }
    Ok(text)
}
