//! What the commands of a manifest share.
ghost use Rattle.file_commands.specs.Answer.{ending_at};
ghost use Rattle.file_commands.specs.Manifests.{Refuses};

use crate::ended::Ended;
use crate::status::Status;
use crate::texts::refusals::refused_line;
use run_setup::LineRefusal;
use std::alloc::Global;

/// The most bytes of a manifest.
pub const MANIFEST_LIMIT: u32 = 1_048_576;

/// Lines that are refused end the command.
pub fn refuse_line(alloc: Global, refusal: &LineRefusal) -> Ended
    ensures { Refuses refusal.now (ending_at result) }
{
    match refusal {
        LineRefusal::At { line, fault } => {
            let text = refused_line(alloc, *line, fault);
            Ended::early(alloc, Status::Refused, text)
        }
        LineRefusal::Memory => Ended::Memory,
    }
}
