//! The line of a fault.

ghost use Rattle.std.specs.Prelude.{◌≡◌, ◌<◌, ◌^◌, ◌++◌, codes, decimal, unsigned_abs, true, Some, IfOk, IfSome};
ghost use Rattle.call_log.specs.Lines.{word_digits};
ghost use Rattle.elf32_reader.specs.Faults.{header_fault, section_fault};
ghost use Rattle.elf32_reader.specs.Header.{count_of, entry_of};
ghost use Rattle.elf32_reader.specs.Relas.{is_kept, rela_count};
ghost use Rattle.elf32_reader.specs.Sections.{section};
ghost use Rattle.elf32_reader.specs.Symbols.{is_symtab, symbol_count};
ghost use Rattle.psabi_relocs.specs.Search.{first_below};
ghost use Rattle.elf2flt_tool.specs.declared.fault.Fault.TheVariants as every;
ghost use Rattle.elf2flt_tool.specs.Faults.{entry_at, elf_in};
ghost use Rattle.fault_texts.specs.Words.{elf_fault_words};
ghost use Rattle.fault_texts.specs.Symbols.{section_text};
ghost use Rattle.fault_texts.specs.Lines.{off_text, kind_text, place_text, around_text, distance_text, meant_text, where_text, sight_of, index_text, header_text, has_byte, section_or_outside, entry_text, layout_text, entry_words, word_text, fault_line};

use crate::entry::EntryAt;
use crate::names::{NAME_LIMIT, push_name_or};
use crate::sights::Sight;
use crate::symbols::{push_home, push_section, push_symbol};
use crate::words::{elf_fault_words, layout_fault_words, reloc_fault_words};
use byte_words::{byte, half, word};
use call_log::{push_decimal, push_word};
use elf32_reader::{Elf, ElfFault, Heads, Section};
use flat_layout::LayoutFault;
use psabi_relocs::{Meant, RelocFault, kind_name};
use std::alloc::AllocError;

/// A number, decimal, behind this front.
pub fn push_number(text: &mut Vec<u8>, front: &[u8], number: u64) -> Result<(), AllocError>
    ensures { IfOk result (λ _. text.new.items ≡ text.old.items ++ front.now ++ decimal number) }
{
    text.extend_from_slice(front)?;
    push_decimal(text, number)
}

/// An address in eight digits, behind this front and `0x`.
fn push_address(text: &mut Vec<u8>, front: &[u8], address: u32) -> Result<(), AllocError>
    ensures { IfOk result (λ _. text.new.items ≡ text.old.items ++ front.now ++ codes "0x" ++ word_digits address) }
{
    text.extend_from_slice(front)?;
    text.extend_from_slice(b"0x")?;
    push_word(text, address)
}

/// How far a place is behind another one, or before it.
fn push_off(text: &mut Vec<u8>, distance: i64) -> Result<(), AllocError>
    requires { unsigned_abs distance < 2 ^ 32 }
    ensures { IfOk result (λ _. text.new.items ≡ text.old.items ++ off_text distance) }
{
    if distance < 0 {
        text.extend_from_slice(b"-0x")?;
    } else {
        text.extend_from_slice(b"+0x")?;
    }
    push_word(text, distance.unsigned_abs() as u32)
}

/// The name of a type.
fn push_kind(text: &mut Vec<u8>, kind: u8) -> Result<(), AllocError>
    ensures { IfOk result (λ _. text.new.items ≡ text.old.items ++ kind_text kind) }
{
    match kind_name(kind) {
        Some(name) => {
            text.extend_from_slice(b"R_RISCV_")?;
            text.extend_from_slice(name)
        }
        None => push_number(text, b"type_", u64::from(kind)),
    }
}

/// The symbol around a place.
fn push_around(
    text: &mut Vec<u8>,
    elf: &Elf<'_>,
    table: u32,
    place: u32,
    around: Option<u32>,
) -> Result<(), AllocError>
    requires table { is_symtab elf.now table ≡ true }
    requires around { IfSome around (λ symbol. symbol < symbol_count elf.now table) }
    ensures { IfOk result (λ _. text.new.items ≡ text.old.items ++ around_text elf.now table place around) }
{
    match around {
        Some(symbol) => {
            push_symbol(text, elf, table, symbol)?;
            let value = elf.symbol(table, symbol).value;
            push_off(text, i64::from(place) - i64::from(value))
        }
        None => text.extend_from_slice(b"-"),
    }
}

/// How far behind its symbol's value a place is, if it is.
fn push_distance(text: &mut Vec<u8>, distance: i64) -> Result<(), AllocError>
    requires { unsigned_abs distance < 2 ^ 32 }
    ensures { IfOk result (λ _. text.new.items ≡ text.old.items ++ distance_text distance) }
{
    if distance == 0 {
        Ok(())
    } else {
        push_off(text, distance)
    }
}

/// The symbol that an entry means.
fn push_meant(
    text: &mut Vec<u8>,
    elf: &Elf<'_>,
    table: u32,
    meant: &Meant,
) -> Result<(), AllocError>
    requires table { is_symtab elf.now table ≡ true }
    requires symbol { meant.now.symbol < symbol_count elf.now table }
    requires distance { unsigned_abs meant.now.distance < 2 ^ 32 }
    ensures { IfOk result (λ _. text.new.items ≡ text.old.items ++ meant_text elf.now table meant.now) }
{
    push_symbol(text, elf, table, meant.symbol)?;
    push_distance(text, meant.distance)?;
    text.extend_from_slice(b" of ")?;
    push_home(text, elf, table, meant.symbol)
}

/// A section and how far behind its address a place is.
fn push_place(text: &mut Vec<u8>, elf: &Elf<'_>, section: u32, place: u32) -> Result<(), AllocError>
    requires { section < count_of elf.now }
    ensures { IfOk result (λ _. text.new.items ≡ text.old.items ++ place_text elf.now section place) }
{
    push_section(text, elf, section)?;
    push_off(
        text,
        i64::from(place) - i64::from(elf.section(section).addr),
    )
}

/// What an entry asks for, where, and of which symbol.
#[tactic(auto, unfolding(crate::specs::Lines::where_text))]
fn push_where(
    text: &mut Vec<u8>,
    elf: &Elf<'_>,
    entry: EntryAt,
    sight: &Sight,
) -> Result<(), AllocError>
    requires kept { is_kept elf.now entry.section ≡ true }
    requires entry { entry.index < rela_count elf.now entry.section }
    requires sight { sight.now ≡ sight_of elf.now (entry_at entry.section entry.index) }
    ensures { IfOk result (λ _. text.new.items ≡ text.old.items ++ where_text elf.now (entry_at entry.section entry.index)) }
{
    let kept = elf.section(entry.section);
    let rela = elf.rela(entry.section, entry.index);
    push_kind(text, rela.kind)?;
    text.extend_from_slice(b" at ")?;
    push_place(text, elf, kept.info, rela.offset)?;
    text.extend_from_slice(b" in ")?;
    push_around(text, elf, kept.link, rela.offset, sight.around)?;
    text.extend_from_slice(b" to ")?;
    push_meant(text, elf, kept.link, &sight.meant)?;
    Ok(())
}

/// ` section I `
fn push_index(text: &mut Vec<u8>, index: u32) -> Result<(), AllocError>
    ensures { IfOk result (λ _. text.new.items ≡ text.old.items ++ codes " section " ++ decimal index ++ codes " ") }
{
    push_number(text, b" section ", u64::from(index))?;
    text.push(b' ')?;
    Ok(())
}

/// ` section I SECTION`
fn push_indexed(text: &mut Vec<u8>, elf: &Elf<'_>, index: u32) -> Result<(), AllocError>
    requires { index < count_of elf.now }
    ensures { IfOk result (λ _. text.new.items ≡ text.old.items ++ index_text elf.now index) }
{
    push_index(text, index)?;
    push_section(text, elf, index)
}

/// A section of a file that is refused for what its section headers say, by its name.
fn push_head_name(text: &mut Vec<u8>, heads: &Heads<'_>, index: u32) -> Result<(), AllocError>
    requires { index < count_of heads.now }
    ensures { IfOk result (λ _. text.new.items ≡ text.old.items ++ section_text heads.now index) }
{
    push_name_or(
        text,
        b'#',
        index,
        heads.section_name_start(index, NAME_LIMIT),
    )
}

/// ` section I SECTION` of such a file.
fn push_head(text: &mut Vec<u8>, heads: &Heads<'_>, index: u32) -> Result<(), AllocError>
    requires { index < count_of heads.now }
    ensures { IfOk result (λ _. text.new.items ≡ text.old.items ++ index_text heads.now index) }
{
    push_index(text, index)?;
    push_head_name(text, heads, index)
}

/// A number that was found, decimal.
fn push_number_found(text: &mut Vec<u8>, number: u32) -> Result<(), AllocError>
    ensures { IfOk result (λ _. text.new.items ≡ text.old.items ++ codes " found " ++ decimal number) }
{
    push_number(text, b" found ", u64::from(number))
}

/// What was found in a header in the place of what is wanted.
fn push_found(text: &mut Vec<u8>, bytes: &[u8], fault: ElfFault) -> Result<(), AllocError>
    requires { header_fault bytes.now ≡ Some fault }
    ensures { IfOk result (λ _. text.new.items ≡ text.old.items ++ header_text bytes.now fault) }
{
    match fault {
        ElfFault::Class => push_number_found(text, u32::from(byte(bytes, 4))),
        ElfFault::Order => push_number_found(text, u32::from(byte(bytes, 5))),
        ElfFault::FileType => push_number_found(text, u32::from(half(bytes, 16))),
        ElfFault::Machine => push_number_found(text, u32::from(half(bytes, 18))),
        ElfFault::Flags => push_address(text, b" found ", word(bytes, 36)),
        _ => Ok(()),
    }
}

/// `elf N FAULT`
fn push_elf_fault(text: &mut Vec<u8>, fault: ElfFault) -> Result<(), AllocError>
    ensures { IfOk result (λ _. text.new.items ≡ text.old.items ++ codes "elf " ++ elf_fault_words fault) }
{
    text.extend_from_slice(b"elf ")?;
    text.extend_from_slice(elf_fault_words(fault).as_bytes())
}

/// The line of a fault of a header.
#[tactic(auto, unfolding(crate::specs::Lines::fault_line))]
pub fn push_header_line(text: &mut Vec<u8>, bytes: &[u8], fault: ElfFault) -> Result<(), AllocError>
    requires { header_fault bytes.now ≡ Some fault }
    ensures { IfOk result (λ _. text.new.items ≡ text.old.items ++ fault_line bytes.now (elf_in fault 0)) }
{
    push_elf_fault(text, fault)?;
    push_found(text, bytes, fault)?;
    text.push(b'\n')?;
    Ok(())
}

/// The line of a fault of a section header.
#[tactic(auto, unfolding(crate::specs::Lines::fault_line))]
pub fn push_head_line(
    text: &mut Vec<u8>,
    heads: &Heads<'_>,
    fault: ElfFault,
    section: u32,
) -> Result<(), AllocError>
    requires fault { section_fault heads.now ≡ Some fault }
    requires section { section < count_of heads.now }
    ensures { IfOk result (λ _. text.new.items ≡ text.old.items ++ fault_line heads.now (elf_in fault section)) }
{
    push_elf_fault(text, fault)?;
    push_head(text, heads, section)?;
    text.push(b'\n')?;
    Ok(())
}

/// Whether a section of the image has the byte at an address.
fn has_byte(section: &Section, address: u32) -> bool
    ensures { result ≡ has_byte address section.now }
{
    section.is_allocated()
        && section.size > 0
        && section.addr <= address
        && u64::from(address) < u64::from(section.addr) + u64::from(section.size)
}

/// The first section of the image with the byte at an address.
fn section_at(elf: &Elf<'_>, address: u32) -> Option<u32>
    ensures { result ≡ first_below (λ i. has_byte address (section elf.now i)) (count_of elf.now) }
{
    for index in 0..elf.sections() {
        if has_byte(&elf.section(index), address) {
            return Some(index);
        }
    }
    None
}

/// A section, or ` outside`.
fn push_section_or_outside(
    text: &mut Vec<u8>,
    elf: &Elf<'_>,
    section: Option<u32>,
) -> Result<(), AllocError>
    requires { IfSome section (λ index. index < count_of elf.now) }
    ensures { IfOk result (λ _. text.new.items ≡ text.old.items ++ section_or_outside elf.now section) }
{
    match section {
        Some(index) => push_indexed(text, elf, index),
        None => text.extend_from_slice(b" outside"),
    }
}

/// Where a program begins, and the section that has that byte.
fn push_begin(text: &mut Vec<u8>, elf: &Elf<'_>) -> Result<(), AllocError>
    ensures { IfOk result (λ _. text.new.items ≡ text.old.items ++ entry_text elf.now) }
{
    let begin = elf.entry();
    push_address(text, b" entry ", begin)?;
    push_section_or_outside(text, elf, section_at(elf, begin))?;
    Ok(())
}

/// Which sections a fault of the layout speaks of.
fn push_layout_sections(
    text: &mut Vec<u8>,
    elf: &Elf<'_>,
    fault: LayoutFault,
    section: u32,
    other: u32,
) -> Result<(), AllocError>
    requires section { section < count_of elf.now }
    requires other { other < count_of elf.now }
    ensures { IfOk result (λ _. text.new.items ≡ text.old.items ++ layout_text elf.now section other fault) }
{
    match fault {
        LayoutFault::NoSections => Ok(()),
        LayoutFault::TooLarge | LayoutFault::Dynamic | LayoutFault::Tls => {
            push_indexed(text, elf, section)
        }
        LayoutFault::Overlap => {
            push_indexed(text, elf, section)?;
            push_indexed(text, elf, other)
        }
        LayoutFault::EntryOutside => push_begin(text, elf),
    }
}

/// The line of a fault of the layout.
#[tactic(auto, unfolding(crate::specs::Lines::fault_line))]
pub fn push_layout_line(
    text: &mut Vec<u8>,
    elf: &Elf<'_>,
    fault: LayoutFault,
    section: u32,
    other: u32,
) -> Result<(), AllocError>
    requires section { section < count_of elf.now }
    requires other { other < count_of elf.now }
    ensures { IfOk result (λ _. text.new.items ≡ text.old.items ++ fault_line elf.now (every.Layout fault section other)) }
{
    text.extend_from_slice(b"layout ")?;
    text.extend_from_slice(layout_fault_words(fault).as_bytes())?;
    push_layout_sections(text, elf, fault, section, other)?;
    text.push(b'\n')?;
    Ok(())
}

/// `section S entry I `
fn push_entry(text: &mut Vec<u8>, entry: EntryAt) -> Result<(), AllocError>
    ensures { IfOk result (λ _. text.new.items ≡ text.old.items ++ entry_words entry.section entry.index) }
{
    push_number(text, b"section ", u64::from(entry.section))?;
    push_number(text, b" entry ", u64::from(entry.index))?;
    text.push(b' ')?;
    Ok(())
}

/// The line of a fault of an entry by itself.
#[tactic(auto, unfolding(crate::specs::Lines::fault_line))]
pub fn push_reloc_line(
    text: &mut Vec<u8>,
    elf: &Elf<'_>,
    fault: RelocFault,
    entry: EntryAt,
    sight: &Sight,
) -> Result<(), AllocError>
    requires kept { is_kept elf.now entry.section ≡ true }
    requires entry { entry.index < rela_count elf.now entry.section }
    requires sight { sight.now ≡ sight_of elf.now (entry_at entry.section entry.index) }
    ensures { IfOk result (λ _. text.new.items ≡ text.old.items ++ fault_line elf.now (every.Reloc entry.section entry.index fault)) }
{
    text.extend_from_slice(b"reloc ")?;
    push_entry(text, entry)?;
    text.extend_from_slice(reloc_fault_words(fault).as_bytes())?;
    text.push(b' ')?;
    push_where(text, elf, entry, sight)?;
    text.push(b'\n')?;
    Ok(())
}

/// An entry whose word has a place, and what it asks for.
fn push_word_at(
    text: &mut Vec<u8>,
    elf: &Elf<'_>,
    place: u32,
    entry: EntryAt,
    sight: &Sight,
) -> Result<(), AllocError>
    requires kept { is_kept elf.now entry.section ≡ true }
    requires entry { entry.index < rela_count elf.now entry.section }
    requires sight { sight.now ≡ sight_of elf.now (entry_at entry.section entry.index) }
    ensures { IfOk result (λ _. text.new.items ≡ text.old.items ++ word_text elf.now place (entry_at entry.section entry.index)) }
{
    push_address(text, b"", place)?;
    text.push(b' ')?;
    push_entry(text, entry)?;
    push_where(text, elf, entry, sight)?;
    text.push(b'\n')?;
    Ok(())
}

/// The line of a word that points outside.
#[tactic(auto, unfolding(crate::specs::Lines::fault_line))]
pub fn push_target_line(
    text: &mut Vec<u8>,
    elf: &Elf<'_>,
    place: u32,
    entry: EntryAt,
    sight: &Sight,
) -> Result<(), AllocError>
    requires kept { is_kept elf.now entry.section ≡ true }
    requires entry { entry.index < rela_count elf.now entry.section }
    requires sight { sight.now ≡ sight_of elf.now (entry_at entry.section entry.index) }
    ensures { IfOk result (λ _. text.new.items ≡ text.old.items ++ fault_line elf.now (every.TargetOutside place entry.section entry.index)) }
{
    text.extend_from_slice(b"target ")?;
    push_word_at(text, elf, place, entry, sight)
}

/// The line of a word that overlaps.
#[tactic(auto, unfolding(crate::specs::Lines::fault_line))]
pub fn push_overlap_line(
    text: &mut Vec<u8>,
    elf: &Elf<'_>,
    place: u32,
    entry: EntryAt,
    sight: &Sight,
) -> Result<(), AllocError>
    requires kept { is_kept elf.now entry.section ≡ true }
    requires entry { entry.index < rela_count elf.now entry.section }
    requires sight { sight.now ≡ sight_of elf.now (entry_at entry.section entry.index) }
    ensures { IfOk result (λ _. text.new.items ≡ text.old.items ++ fault_line elf.now (every.WordOverlap place entry.section entry.index)) }
{
    text.extend_from_slice(b"overlap ")?;
    push_word_at(text, elf, place, entry, sight)
}
