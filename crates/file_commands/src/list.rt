//! The command `list FLT`.
ghost use Rattle.file_commands.specs.Ending.{OrMemory};
ghost use Rattle.file_commands.specs.Observed.{observed};
ghost use Rattle.file_commands.specs.Answer.{ending_of};
ghost use Rattle.file_commands.specs.List.{listed_ending, list_outcome};
ghost use Rattle.file_commands.specs.HostCourse.{PerformsCommand};

use crate::answer::Answer;
use crate::file_load::load_file;
use crate::status::Status;
use crate::texts::listing::{listing, refused_flat};
use bflt_format::Flat;
use host_io::Host;
use std::alloc::{AllocError, Global};

/// Loads the flat file and lists what it says.
pub fn list_file<H: Host>(alloc: Global, flt: &str, host: &mut H) -> Result<Answer, AllocError>
    ensures { PerformsCommand (observed H.told H.faults host.old) (observed H.told H.faults host.new) (list_outcome flt.now) (ending_of result) }
{
    match load_file(alloc, flt, host) {
        Ok(bytes) => list_bytes(alloc, &bytes),
        Err(ended) => ended.answer(),
    }
}

fn list_bytes(alloc: Global, bytes: &[u8]) -> Result<Answer, AllocError>
    ensures { OrMemory (listed_ending bytes.now) (ending_of result) }
{
    match Flat::read(alloc, bytes) {
        Ok(flat) => {
            let text = listing(alloc, &flat)?;
            Ok(Answer::done(alloc, text))
        }
        Err(fault) => Answer::early(alloc, Status::Refused, refused_flat(alloc, fault)),
    }
}
