//! The texts that users see; those of a listing stand in `listing`, those of an image in `images`, those of a replay in `replays`.
ghost use Rattle.std.specs.Prelude.{◌≡◌, IfOk, IsErr, string_bytes};
ghost use Rattle.file_commands.specs.Texts.{usage_line, cannot_read_line, cannot_write_line, refused_line, address_words, reloc_tail, refusal_tail, parts_text, convert_line, check_line, demo_line};
ghost use Rattle.file_commands.specs.Sizes.{sizes_of};

use bflt_format::Flat;
use elf2flt_tool::Refusal;
use fault_texts::{elf_fault_words, layout_fault_words, reloc_fault_words};
use psabi_relocs::RelocFault;
use std::alloc::{AllocError, Global};

pub mod images;
pub mod listing;
pub mod refusals;
pub mod replays;

/// The line of a call that is out of memory. It takes no memory itself.
pub const MEMORY_LINE: &str = "memory\n";

/// The line for arguments that are no command.
pub fn usage(alloc: Global) -> Result<String, AllocError>
    ensures { IfOk result (λ line. string_bytes line ≡ usage_line) }
{
    String::from_str(alloc, "usage: flatc COMMAND WORDS\n")
}

/// The line for a file that the host can't load.
pub fn cannot_read(alloc: Global, name: &str) -> Result<String, AllocError>
    ensures { IfOk result (λ line. string_bytes line ≡ cannot_read_line name.now) }
{
    format!(in alloc; "host: cannot read {name}\n")
}

/// The line for a file that the host can't store.
pub fn cannot_write(alloc: Global, name: &str) -> Result<String, AllocError>
    ensures { IfOk result (λ line. string_bytes line ≡ cannot_write_line name.now) }
{
    format!(in alloc; "host: cannot write {name}\n")
}

/// The line for input with a fault.
pub fn refused(alloc: Global, tail: &str) -> Result<String, AllocError>
    ensures { IfOk result (λ line. string_bytes line ≡ refused_line tail.now) }
{
    format!(in alloc; "refused: {tail}\n")
}

fn reloc_tail(
    alloc: Global,
    section: u32,
    index: u32,
    fault: RelocFault,
) -> Result<String, AllocError>
    ensures { IfOk result (λ tail. string_bytes tail ≡ reloc_tail section index fault) }
{
    let words = reloc_fault_words(fault);
    format!(in alloc; "reloc section {section} entry {index} {words}")
}

/// An address in eight digits.
pub fn address_words(alloc: Global, address: u32) -> Result<String, AllocError>
    ensures { IfOk result (λ words. string_bytes words ≡ address_words address) }
{
    format!(in alloc; "0x{address:08x}")
}

/// What is wrong with an ELF file that isn't converted. Out of memory has no such words.
pub fn conversion_tail(alloc: Global, refusal: &Refusal) -> Result<String, AllocError>
    ensures tail { IfOk result (λ tail. string_bytes tail ≡ refusal_tail refusal.now) }
    ensures no_tail { refusal.now ≡ Refusal.Memory → IsErr result }
{
    match refusal {
        Refusal::Elf(fault) => {
            let words = elf_fault_words(*fault);
            format!(in alloc; "elf {words}")
        }
        Refusal::Layout(fault) => {
            let words = layout_fault_words(*fault);
            format!(in alloc; "layout {words}")
        }
        Refusal::Reloc {
            section,
            index,
            fault,
        } => reloc_tail(alloc, *section, *index, *fault),
        Refusal::TargetOutside { place } => {
            let address = address_words(alloc, *place)?;
            format!(in alloc; "target {address}")
        }
        Refusal::WordOverlap { place } => {
            let address = address_words(alloc, *place)?;
            format!(in alloc; "overlap {address}")
        }
        Refusal::Memory => Err(AllocError),
    }
}

/// The line for an ELF file that isn't converted. Out of memory has no such line.
pub fn refused_conversion(alloc: Global, refusal: &Refusal) -> Result<String, AllocError>
    ensures line { IfOk result (λ line. string_bytes line ≡ refused_line (refusal_tail refusal.now)) }
    ensures no_line { refusal.now ≡ Refusal.Memory → IsErr result }
{
    let tail = conversion_tail(alloc, refusal)?;
    refused(alloc, &tail)
}

/// The sizes of text, data and bss.
fn parts_text(alloc: Global, flat: &Flat) -> Result<String, AllocError>
    ensures { IfOk result (λ text. string_bytes text ≡ parts_text (sizes_of flat.now)) }
{
    let text = flat.text();
    let data_len = flat.data_len();
    let bss = flat.bss();
    format!(in alloc; "text {text} data {data_len} bss {bss}")
}

/// The line of a converted file.
pub fn convert_line(alloc: Global, flat: &Flat) -> Result<String, AllocError>
    ensures { IfOk result (λ line. string_bytes line ≡ convert_line (sizes_of flat.now)) }
{
    let parts = parts_text(alloc, flat)?;
    let stack = flat.stack();
    let records = flat.records().len();
    let entry = flat.entry();
    format!(in alloc; "{parts} stack {stack} records {records} entry {entry}\n")
}

/// The line of a file that could be converted.
pub fn check_line(alloc: Global, flat: &Flat) -> Result<String, AllocError>
    ensures { IfOk result (λ line. string_bytes line ≡ check_line (sizes_of flat.now)) }
{
    let parts = parts_text(alloc, flat)?;
    let records = flat.records().len();
    format!(in alloc; "accepted {parts} records {records}\n")
}

/// The line of a demo: its programs, the events of the machine, the bytes of the console, and the sum of the exit codes.
pub fn demo_line(
    alloc: Global,
    programs: u32,
    events: u64,
    console: usize,
    exits: u128,
) -> Result<String, AllocError>
    ensures { IfOk result (λ line. string_bytes line ≡ demo_line programs events console exits) }
{
    format!(in alloc; "demo {programs} events {events} console {console} exits {exits}\n")
}
