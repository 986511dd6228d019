//! The command `convert ELF FLT [--stack N]`.
ghost use Rattle.std.specs.Prelude.{◌≡◌, ◌≤◌};
ghost use Rattle.bflt_format.specs.Spelling.{spell};
ghost use Rattle.file_commands.specs.Sizes.{sizes_of};
ghost use Rattle.file_commands.specs.Texts.{refusal_tail, convert_line};
ghost use Rattle.file_commands.specs.Ending.{memory_ending, refused_ending, OrMemory};
ghost use Rattle.file_commands.specs.Observed.{observed};
ghost use Rattle.file_commands.specs.Answer.{ending_of};
ghost use Rattle.file_commands.specs.Arguments.{least_stack, most_stack};
ghost use Rattle.file_commands.specs.Convert.{stored_outcome, converted_outcome, convert_outcome};
ghost use Rattle.file_commands.specs.HostCourse.{Performs, PerformsCommand};

use crate::answer::Answer;
use crate::file_load::load_file;
use crate::status::Status;
use crate::store::store_file;
use crate::texts;
use bflt_format::Flat;
use elf2flt_tool::{Refusal, flat_file_in_place};
use host_io::Host;
use std::alloc::{AllocError, Global};

/// Loads the ELF file, converts it and stores its flat file.
pub fn convert_file<H: Host>(
    alloc: Global,
    elf: &str,
    flt: &str,
    stack: u32,
    host: &mut H,
) -> Result<Answer, AllocError>
    requires some_stack { least_stack ≤ stack }
    requires stack_limit { stack ≤ most_stack }
    ensures { PerformsCommand (observed H.told H.faults host.old) (observed H.told H.faults host.new) (convert_outcome elf.now flt.now stack) (ending_of result) }
{
    match load_file(alloc, elf, host) {
        Ok(bytes) => convert_bytes(alloc, bytes, flt, stack, host),
        Err(ended) => ended.answer(),
    }
}

fn convert_bytes<H: Host>(
    alloc: Global,
    bytes: Vec<u8>,
    flt: &str,
    stack: u32,
    host: &mut H,
) -> Result<Answer, AllocError>
    requires some_stack { least_stack ≤ stack }
    requires stack_limit { stack ≤ most_stack }
    ensures { Performs (observed H.told H.faults host.old) (observed H.told H.faults host.new) (converted_outcome flt.now stack bytes.items) (ending_of result) }
{
    match flat_file_in_place(alloc, bytes, stack) {
        Ok(flat) => store_flat(alloc, flt, flat, host),
        Err(refusal) => refuse(alloc, &refusal),
    }
}

fn store_flat<H: Host>(
    alloc: Global,
    flt: &str,
    flat: Flat,
    host: &mut H,
) -> Result<Answer, AllocError>
    ensures { Performs (observed H.told H.faults host.old) (observed H.told H.faults host.new) (stored_outcome flt.now (spell flat) (convert_line (sizes_of flat))) (ending_of result) }
{
    let line = texts::convert_line(alloc, &flat)?;
    let bytes = flat.into_bytes()?;
    store_file(alloc, flt, &bytes, Answer::done(alloc, line), host)
}

/// The answer for an ELF file that isn't converted.
pub fn refuse(alloc: Global, refusal: &Refusal) -> Result<Answer, AllocError>
    ensures ending { OrMemory (refused_ending (refusal_tail refusal.now)) (ending_of result) }
    ensures memory { refusal.now ≡ Refusal.Memory → ending_of result ≡ memory_ending }
{
    let line = texts::refused_conversion(alloc, refusal);
    Answer::early(alloc, Status::Refused, line)
}
