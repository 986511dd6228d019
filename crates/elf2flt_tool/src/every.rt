//! Every reason why a file isn't converted.

ghost use Rattle.std.specs.Prelude.{◌≡◌, ◌++◌, true, Some, IfOk};
ghost use Rattle.elf32_reader.specs.Faults.{header_fault, elf_fault};
ghost use Rattle.flat_layout.specs.Layout.{layout as layout_of};
ghost use Rattle.flat_layout.specs.Rows.{has_numbers};
ghost use Rattle.elf2flt_tool.specs.Faults.{elf_faults, layout_faults, words_faults, read_faults, faults};

use crate::by_place::{add_overlaps, add_targets, by_place};
use crate::fault::Fault;
use crate::noting::note_all;
use crate::overlapping::met_words;
use crate::rows::{layout_faults, section_faults};
use crate::walk::Walk;
use elf32_reader::{Elf, ElfFault, Heads};
use flat_layout::Layout;
use std::alloc::{AllocError, Global};

/// The faults of a file that can't be read.
fn elf_faults(alloc: Global, bytes: &[u8], fault: ElfFault) -> Result<Vec<Fault>, AllocError>
    requires { elf_fault bytes.now ≡ Some fault }
    ensures { IfOk result (λ list. list.items ≡ elf_faults bytes.now (header_fault bytes.now)) }
{
    match Heads::of(bytes) {
        Some(heads) => {
            let faults = section_faults(alloc, &heads, fault)?;
            Ok(faults)
        }
        None => {
            let mut faults = Vec::new(alloc);
            faults.push(Fault::Elf {
                fault,
                section: 0,
                other: 0,
            })?;
            Ok(faults)
        }
    }
}

/// Those of the relocations of a file whose bytes have numbers, behind those of its layout.
fn with_words(
    alloc: Global,
    elf: &Elf<'_>,
    layout: &Layout,
    faults: Vec<Fault>,
) -> Result<Vec<Fault>, AllocError>
    requires numbers { has_numbers elf.now ≡ true }
    requires layout { layout.now ≡ layout_of elf.now }
    requires faults { faults.items ≡ layout_faults elf.now }
    ensures { IfOk result (λ list. list.items ≡ layout_faults elf.now ++ words_faults elf.now) }
{
    let walk = Walk::of(alloc, elf, layout)?;
    let noted = note_all(alloc, &walk, faults)?;
    let met = met_words(alloc, &noted.cover, &walk)?;
    let mut faults = noted.faults;
    add_targets(&mut faults, layout, &by_place(noted.outside)?)?;
    add_overlaps(&mut faults, layout, &by_place(met)?)?;
    Ok(faults)
}

/// The faults of a file that was read.
fn read_faults(alloc: Global, elf: &Elf<'_>) -> Result<Vec<Fault>, AllocError>
    ensures { IfOk result (λ list. list.items ≡ read_faults elf.now) }
{
    let faults = layout_faults(alloc, elf)?;
    match Layout::numbers(elf) {
        Some(layout) => {
            let all = with_words(alloc, elf, &layout, faults)?;
            Ok(all)
        }
        None => Ok(faults),
    }
}

/// Every fault of a file, in the order of the variants of `Refusal`: the first of them is the one that `convert` tells, and the
/// list is empty where `convert` converts.
///
/// The time is n log n in the entries of relocations, and the square of the number of sections at most. It takes 16 bytes for a
/// fault, and for the time of the call what a conversion takes, and 12 bytes for each word that points outside or meets another.
///
/// # Errors
///
/// Only out of memory is an `Err`.
pub fn faults(alloc: Global, bytes: &[u8]) -> Result<Vec<Fault>, AllocError>
    ensures { IfOk result (λ list. list.items ≡ faults bytes.now) }
{
    match Elf::read(bytes) {
        Ok(elf) => {
            let list = read_faults(alloc, &elf)?;
            Ok(list)
        }
        Err(fault) => {
            let list = elf_faults(alloc, bytes, fault)?;
            Ok(list)
        }
    }
}
