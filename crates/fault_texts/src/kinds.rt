//! How many faults there are of each kind.

ghost use Rattle.std.specs.Prelude.{◌≡◌, ◌++◌, bytes_eq, IfOk};
ghost use Rattle.std.specs.List.{flat_map};
ghost use Rattle.fault_texts.specs.Counts.{count_line, kind_of, kind_lines};
ghost use Rattle.fault_texts.specs.Kinds.{front_of, name_of, words_of, number_of, line_of};

use crate::lines::push_number;
use crate::words::{elf_fault_words, layout_fault_words, reloc_fault_words};
use elf2flt_tool::Fault;
use elf32_reader::ElfFault;
use flat_layout::LayoutFault;
use psabi_relocs::RelocFault;
use std::alloc::AllocError;

/// What a fault is, wherever it stands.
#[derive(Clone, Copy)]
pub enum Kind {
    Elf(ElfFault),
    Layout(LayoutFault),
    Reloc(RelocFault),
    Target,
    Overlap,
}

/// All kinds, in the order of faults.
const KINDS: [Kind; 30] = [
    Kind::Elf(ElfFault::Short),
    Kind::Elf(ElfFault::Magic),
    Kind::Elf(ElfFault::Class),
    Kind::Elf(ElfFault::Order),
    Kind::Elf(ElfFault::Version),
    Kind::Elf(ElfFault::FileType),
    Kind::Elf(ElfFault::Machine),
    Kind::Elf(ElfFault::Flags),
    Kind::Elf(ElfFault::SectionTable),
    Kind::Elf(ElfFault::SectionRange),
    Kind::Elf(ElfFault::SymbolRange),
    Kind::Elf(ElfFault::RelaShape),
    Kind::Layout(LayoutFault::NoSections),
    Kind::Layout(LayoutFault::TooLarge),
    Kind::Layout(LayoutFault::Overlap),
    Kind::Layout(LayoutFault::Dynamic),
    Kind::Layout(LayoutFault::Tls),
    Kind::Layout(LayoutFault::EntryOutside),
    Kind::Reloc(RelocFault::UnknownType),
    Kind::Reloc(RelocFault::BadSymbol),
    Kind::Reloc(RelocFault::Undefined),
    Kind::Reloc(RelocFault::PlaceOutside),
    Kind::Reloc(RelocFault::AbsoluteCode),
    Kind::Reloc(RelocFault::WeakPcrel),
    Kind::Reloc(RelocFault::AbsPcrel),
    Kind::Reloc(RelocFault::LoneLow),
    Kind::Reloc(RelocFault::Unpaired),
    Kind::Reloc(RelocFault::FieldMismatch),
    Kind::Target,
    Kind::Overlap,
];

/// The kind of a fault.
fn kind_of(fault: &Fault) -> Kind
    ensures { words_of result ≡ kind_of fault.now }
{
    match *fault {
        Fault::Elf { fault, .. } => Kind::Elf(fault),
        Fault::Layout { fault, .. } => Kind::Layout(fault),
        Fault::Reloc { fault, .. } => Kind::Reloc(fault),
        Fault::TargetOutside { .. } => Kind::Target,
        Fault::WordOverlap { .. } => Kind::Overlap,
    }
}

/// The words of a kind: what it is of.
fn front_of(kind: Kind) -> &'static str
    ensures { result.now ≡ front_of kind }
{
    match kind {
        Kind::Elf(_) => "elf ",
        Kind::Layout(_) => "layout ",
        Kind::Reloc(_) => "reloc ",
        Kind::Target => "target",
        Kind::Overlap => "overlap",
    }
}

/// And its name, where there is more than one of these.
fn name_of(kind: Kind) -> &'static str
    ensures { result.now ≡ name_of kind }
{
    match kind {
        Kind::Elf(fault) => elf_fault_words(fault),
        Kind::Layout(fault) => layout_fault_words(fault),
        Kind::Reloc(fault) => reloc_fault_words(fault),
        Kind::Target | Kind::Overlap => "",
    }
}

/// Whether two kinds are the same.
fn is_same(kind: Kind, other: Kind) -> bool
    ensures { result ≡ bytes_eq (words_of kind) (words_of other) }
{
    front_of(kind) == front_of(other) && name_of(kind) == name_of(other)
}

/// How many faults there are of a kind.
fn count_of(faults: &[Fault], kind: Kind) -> u64
    ensures { result ≡ number_of faults.now kind }
{
    let mut count = 0;
    for fault in faults {
        if is_same(kind_of(fault), kind) {
            count += 1;
        }
    }
    count
}

/// The line of a kind, if there are faults of it.
fn push_count(text: &mut Vec<u8>, kind: Kind, count: u64) -> Result<(), AllocError>
    ensures { IfOk result (λ _. text.new.items ≡ text.old.items ++ count_line (words_of kind) count) }
{
    if count > 0 {
        text.extend_from_slice(b"count ")?;
        text.extend_from_slice(front_of(kind).as_bytes())?;
        text.extend_from_slice(name_of(kind).as_bytes())?;
        push_number(text, b" ", count)?;
        text.push(b'\n')?;
    }
    Ok(())
}

/// A line for each of these kinds of which there are faults.
fn push_counts(text: &mut Vec<u8>, faults: &[Fault], kinds: &[Kind]) -> Result<(), AllocError>
    ensures { IfOk result (λ _. text.new.items ≡ text.old.items ++ flat_map (line_of faults.now) kinds.now) }
{
    for kind in kinds {
        push_count(text, *kind, count_of(faults, *kind))?;
    }
    Ok(())
}

/// How many faults there are of each kind: a line for each that is there.
#[tactic(auto, unfolding(crate::specs::Counts::kind_lines))]
pub fn push_kinds(text: &mut Vec<u8>, faults: &[Fault]) -> Result<(), AllocError>
    ensures { IfOk result (λ _. text.new.items ≡ text.old.items ++ kind_lines faults.now) }
{
    push_counts(text, faults, &KINDS)?;
    Ok(())
}
