//! The command `check ELF [--all]`.
ghost use Rattle.std.specs.Prelude.{◌≡◌, true, false, IfOk};
ghost use Rattle.file_commands.specs.Sizes.{sizes_of};
ghost use Rattle.file_commands.specs.Texts.{refusal_tail, check_line};
ghost use Rattle.file_commands.specs.Ending.{done_ending, listed_ending, memory_ending, OrMemory};
ghost use Rattle.file_commands.specs.Observed.{observed};
ghost use Rattle.file_commands.specs.Answer.{ending_of};
ghost use Rattle.file_commands.specs.Check.{faults_text, checked_ending, check_outcome};
ghost use Rattle.file_commands.specs.HostCourse.{PerformsCommand};

use crate::answer::Answer;
use crate::arguments::DEFAULT_STACK;
use crate::convert::refuse;
use crate::file_load::load_file;
use crate::status::Status;
use crate::texts;
use bflt_format::Flat;
use elf2flt_tool::{Refusal, faults, flat_file, flat_file_in_place};
use fault_texts::listing;
use host_io::Host;
use std::alloc::{AllocError, Global};

/// Loads the ELF file and converts it, and stores nothing. With `all` every fault is listed.
pub fn check_file<H: Host>(
    alloc: Global,
    elf: &str,
    all: bool,
    host: &mut H,
) -> Result<Answer, AllocError>
    ensures { PerformsCommand (observed H.told H.faults host.old) (observed H.told H.faults host.new) (check_outcome elf.now all) (ending_of result) }
{
    match load_file(alloc, elf, host) {
        Ok(bytes) => check_bytes(alloc, bytes, all),
        Err(ended) => ended.answer(),
    }
}

fn check_bytes(alloc: Global, bytes: Vec<u8>, all: bool) -> Result<Answer, AllocError>
    ensures { OrMemory (checked_ending all bytes.items) (ending_of result) }
{
    if all {
        list_faults(alloc, &bytes)
    } else {
        tell_fault(alloc, bytes)
    }
}

fn tell_fault(alloc: Global, bytes: Vec<u8>) -> Result<Answer, AllocError>
    ensures { OrMemory (checked_ending false bytes.items) (ending_of result) }
{
    match flat_file_in_place(alloc, bytes, DEFAULT_STACK) {
        Ok(flat) => accept(alloc, &flat),
        Err(refusal) => refuse(alloc, &refusal),
    }
}

/// The file's bytes are looked at again where it has a fault, so it isn't converted in its place.
fn list_faults(alloc: Global, bytes: &[u8]) -> Result<Answer, AllocError>
    ensures { OrMemory (checked_ending true bytes.now) (ending_of result) }
{
    match flat_file(alloc, bytes, DEFAULT_STACK) {
        Ok(flat) => accept(alloc, &flat),
        Err(refusal) => refuse_listed(alloc, bytes, &refusal),
    }
}

/// The answer for an ELF file that could be converted.
fn accept(alloc: Global, flat: &Flat) -> Result<Answer, AllocError>
    ensures { OrMemory (done_ending (check_line (sizes_of flat.now))) (ending_of result) }
{
    let line = texts::check_line(alloc, flat)?;
    Ok(Answer::done(alloc, line))
}

/// The answer for an ELF file that isn't converted, all of whose faults are told.
fn refuse_listed(alloc: Global, bytes: &[u8], refusal: &Refusal) -> Result<Answer, AllocError>
    ensures ending { OrMemory (listed_ending (faults_text bytes.now) (refusal_tail refusal.now)) (ending_of result) }
    ensures memory { refusal.now ≡ Refusal.Memory → ending_of result ≡ memory_ending }
{
    let line = texts::refused_conversion(alloc, refusal)?;
    let out = faults_text(alloc, bytes)?;
    Ok(Answer {
        status: Status::Refused,
        out,
        report: line.into_bytes(),
    })
}

/// The text of all faults.
fn faults_text(alloc: Global, bytes: &[u8]) -> Result<Vec<u8>, AllocError>
    ensures { IfOk result (λ text. text.items ≡ faults_text bytes.now) }
{
    let found = faults(alloc, bytes)?;
    listing(alloc, bytes, &found)
}
