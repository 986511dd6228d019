//! The lines for a manifest with a fault, and for a line of it that is refused.
ghost use Rattle.std.specs.Prelude.{◌≡◌, IfOk, IsErr, string_bytes};
ghost use Rattle.file_commands.specs.Texts.{refused_line};
ghost use Rattle.file_commands.specs.Texts.Refusals.{manifest_fault_words, manifest_tail, line_fault_words, line_tail};
ghost use Rattle.run_setup.specs.Faults.{IsMemory};

use crate::texts::images::rom_tail;
use crate::texts::listing::flat_tail;
use crate::texts::{conversion_tail, refused};
use manifest_text::ManifestFault;
use run_setup::LineFault;
use std::alloc::{AllocError, Global};

fn manifest_fault_words(fault: ManifestFault) -> &'static str
    ensures { result.now ≡ manifest_fault_words fault }
{
    match fault {
        ManifestFault::BadByte => "1 BadByte",
        ManifestFault::UnknownWord => "2 UnknownWord",
        ManifestFault::WordCount => "3 WordCount",
        ManifestFault::BadNumber => "4 BadNumber",
        ManifestFault::BadPath => "5 BadPath",
        ManifestFault::Repeated => "6 Repeated",
        ManifestFault::TooMany => "7 TooMany",
        ManifestFault::NoQuanta => "8 NoQuanta",
        ManifestFault::NoStart => "9 NoStart",
    }
}

fn manifest_tail(alloc: Global, number: u32, fault: ManifestFault) -> Result<String, AllocError>
    ensures { IfOk result (λ tail. string_bytes tail ≡ manifest_tail number fault) }
{
    let words = manifest_fault_words(fault);
    format!(in alloc; "manifest line {number} {words}")
}

/// The line for a manifest with a fault.
pub fn refused_manifest(
    alloc: Global,
    number: u32,
    fault: ManifestFault,
) -> Result<String, AllocError>
    ensures { IfOk result (λ line. string_bytes line ≡ refused_line (manifest_tail number fault)) }
{
    let tail = manifest_tail(alloc, number, fault)?;
    refused(alloc, &tail)
}

fn line_fault_words(alloc: Global, fault: &LineFault) -> Result<String, AllocError>
    ensures words { IfOk result (λ words. string_bytes words ≡ line_fault_words fault.now) }
    ensures no_words { IsMemory fault.now → IsErr result }
{
    match fault {
        LineFault::TooLong => String::from_str(alloc, "too long"),
        LineFault::Elf(refusal) => conversion_tail(alloc, refusal),
        LineFault::Flat(fault) => flat_tail(alloc, *fault),
        LineFault::Rom(fault) => rom_tail(alloc, *fault),
        LineFault::Place(errno) => {
            let number = errno.number();
            format!(in alloc; "errno {number}")
        }
        LineFault::BadStart => String::from_str(alloc, "start"),
        LineFault::E2big => String::from_str(alloc, "args"),
        LineFault::NoRun => String::from_str(alloc, "no run"),
        LineFault::Memory => Err(AllocError),
    }
}

fn line_tail(alloc: Global, number: u32, fault: &LineFault) -> Result<String, AllocError>
    ensures tail { IfOk result (λ tail. string_bytes tail ≡ line_tail number fault.now) }
    ensures no_tail { IsMemory fault.now → IsErr result }
{
    let words = line_fault_words(alloc, fault)?;
    format!(in alloc; "line {number} {words}")
}

/// The line for a manifest's line of this number. Out of memory has no such line.
pub fn refused_line(alloc: Global, number: u32, fault: &LineFault) -> Result<String, AllocError>
    ensures line { IfOk result (λ line. string_bytes line ≡ refused_line (line_tail number fault.now)) }
    ensures no_line { IsMemory fault.now → IsErr result }
{
    let tail = line_tail(alloc, number, fault)?;
    refused(alloc, &tail)
}
