//! The store of a file at the end of a command.
ghost use Rattle.std.specs.Prelude.{◌≢◌};
ghost use Rattle.file_commands.specs.Observed.{observed};
ghost use Rattle.file_commands.specs.Answer.{ending_in, ending_of};
ghost use Rattle.file_commands.specs.Outcome.{storing};
ghost use Rattle.file_commands.specs.HostCourse.{Performs};

use crate::answer::Answer;
use crate::status::Status;
use crate::texts;
use host_io::{Host, HostError};
use std::alloc::{AllocError, Global};

/// Stores a file, and then has this answer. Where the store fails its one line takes the answer's place.
pub fn store_file<H: Host>(
    alloc: Global,
    name: &str,
    bytes: &[u8],
    answer: Answer,
    host: &mut H,
) -> Result<Answer, AllocError>
    requires { answer.status ≢ Status.HostRead }
    ensures { Performs (observed H.told H.faults host.old) (observed H.told H.faults host.new) (storing name.now bytes.now (ending_in answer)) (ending_of result) }
{
    match host.store(alloc, name, bytes) {
        Ok(()) => Ok(answer),
        Err(HostError::Failed) => {
            Answer::early(alloc, Status::HostWrite, texts::cannot_write(alloc, name))
        }
        Err(HostError::Memory) => Err(AllocError),
    }
}
