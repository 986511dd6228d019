//! The listing of a flat file, and the faults of one.
ghost use Rattle.std.specs.Prelude.{◌≡◌, ◌++◌, IfOk, IsErr, string_bytes};
ghost use Rattle.file_commands.specs.Texts.{refused_line};
ghost use Rattle.file_commands.specs.Texts.Listing.{part_lines, header_lines, record_line, listing, flat_fault_words, flat_tail};

use crate::texts::refused;
use bflt_format::{Flat, FlatFault};
use std::alloc::{AllocError, Global};

/// The header, and a line a record.
pub fn listing(alloc: Global, flat: &Flat) -> Result<String, AllocError>
    ensures { IfOk result (λ text. string_bytes text ≡ listing flat.now) }
{
    let mut text = header_lines(alloc, flat)?;
    for number in flat.records() {
        push_record(&mut text, *number, flat.word_at(*number))?;
    }
    Ok(text)
}

fn header_lines(alloc: Global, flat: &Flat) -> Result<String, AllocError>
    ensures { IfOk result (λ text. string_bytes text ≡ header_lines flat.now) }
{
    let data_start = 64 + flat.text();
    let data_end = data_start + flat.data_len();
    let parts = part_lines(alloc, data_start, data_end, data_end + flat.bss())?;
    let flags = flat.flags();
    let entry = flat.entry();
    let stack = flat.stack();
    let records = flat.records().len();
    format!(in alloc;
        "rev 4 flags {flags}\nentry {entry}\n{parts}stack {stack}\nrecords {records}\n"
    )
}

/// The offsets at which the parts start and end.
fn part_lines(
    alloc: Global,
    data_start: u32,
    data_end: u32,
    bss_end: u32,
) -> Result<String, AllocError>
    ensures { IfOk result (λ text. string_bytes text ≡ part_lines data_start data_end bss_end) }
{
    format!(in alloc;
        "text 64 {data_start}\ndata {data_start} {data_end}\nbss {data_end} {bss_end}\n"
    )
}

/// Appends the line of a record: the number of a word of the image, and what the word says.
fn push_record(text: &mut String, number: u32, word: u32) -> Result<(), AllocError>
    ensures { IfOk result (λ _. string_bytes text.new ≡ string_bytes text.old ++ record_line number word) }
{
    writeln!(text, "record {number} word {word}")
}

fn flat_fault_words(fault: FlatFault) -> &'static str
    ensures { result.now ≡ flat_fault_words fault }
{
    match fault {
        FlatFault::Short => "1 Short",
        FlatFault::Magic => "2 Magic",
        FlatFault::Revision => "3 Revision",
        FlatFault::Flags => "4 Flags",
        FlatFault::Bounds => "5 Bounds",
        FlatFault::DataAlign => "6 DataAlign",
        FlatFault::Entry => "7 Entry",
        FlatFault::StackSize => "8 StackSize",
        FlatFault::RecordTable => "9 RecordTable",
        FlatFault::RecordRange => "10 RecordRange",
        FlatFault::RecordOverlap => "11 RecordOverlap",
        FlatFault::TargetRange => "12 TargetRange",
        FlatFault::Memory => "",
    }
}

/// What is wrong with a flat file. Out of memory has no such words.
pub fn flat_tail(alloc: Global, fault: FlatFault) -> Result<String, AllocError>
    ensures tail { IfOk result (λ tail. string_bytes tail ≡ flat_tail fault) }
    ensures no_tail { fault ≡ FlatFault.Memory → IsErr result }
{
    match fault {
        FlatFault::Memory => Err(AllocError),
        _ => {
            let words = flat_fault_words(fault);
            format!(in alloc; "flat {words}")
        }
    }
}

/// The line for a flat file with a fault. Out of memory has no such line.
pub fn refused_flat(alloc: Global, fault: FlatFault) -> Result<String, AllocError>
    ensures line { IfOk result (λ line. string_bytes line ≡ refused_line (flat_tail fault)) }
    ensures no_line { fault ≡ FlatFault.Memory → IsErr result }
{
    let tail = flat_tail(alloc, fault)?;
    refused(alloc, &tail)
}
