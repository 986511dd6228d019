//! The load of a file that a command goes on with.
ghost use Rattle.std.specs.Prelude.{◌≡◌, IfOk, None, string_bytes};
ghost use Rattle.file_commands.specs.Texts.{refused_line};
ghost use Rattle.file_commands.specs.Texts.Refusals.{too_long_at};
ghost use Rattle.file_commands.specs.OneFile.{file_limit};
ghost use Rattle.file_commands.specs.Observed.{observed};
ghost use Rattle.file_commands.specs.FileLoad.{LoadsFile};

use crate::ended::Ended;
use crate::status::Status;
use crate::texts;
use crate::texts::refusals;
use host_io::{Host, HostError, Loaded};
use run_setup::LineFault;
use std::alloc::{AllocError, Global};

/// The most bytes of a file of the host that a command reads as what it is: an ELF file, a flat file, an image.
pub const INPUT_LIMIT: u32 = 67_108_864;

/// Loads a file of at most 64 MiB.
pub fn load_file<H: Host>(alloc: Global, name: &str, host: &mut H) -> Result<Vec<u8>, Ended>
    ensures { LoadsFile file_limit None (observed H.told H.faults host.old) (observed H.told H.faults host.new) name.now result }
{
    load_limited(alloc, name, INPUT_LIMIT, None, host)
}

/// Loads a file of at most `limit` bytes. The line is that of a manifest, if one brings the file in.
pub fn load_limited<H: Host>(
    alloc: Global,
    name: &str,
    limit: u32,
    line: Option<u32>,
    host: &mut H,
) -> Result<Vec<u8>, Ended>
    ensures { LoadsFile limit line (observed H.told H.faults host.old) (observed H.told H.faults host.new) name.now result }
{
    let mut bytes = Vec::new(alloc);
    match host.load(alloc, name, limit, &mut bytes) {
        Ok(Loaded::All) => Ok(bytes),
        Ok(Loaded::TooLong) => {
            let text = refused_too_long(alloc, line);
            Err(Ended::early(alloc, Status::Refused, text))
        }
        Err(HostError::Failed) => {
            let text = texts::cannot_read(alloc, name);
            Err(Ended::early(alloc, Status::HostRead, text))
        }
        Err(HostError::Memory) => Err(Ended::Memory),
    }
}

fn refused_too_long(alloc: Global, line: Option<u32>) -> Result<String, AllocError>
    ensures { IfOk result (λ text. string_bytes text ≡ refused_line (too_long_at line)) }
{
    match line {
        Some(number) => refusals::refused_line(alloc, number, &LineFault::TooLong),
        None => texts::refused(alloc, "too long"),
    }
}
