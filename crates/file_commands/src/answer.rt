//! What a command ends with.
ghost use Rattle.std.specs.Prelude.{◌≡◌, string_bytes};

use crate::status::Status;
use std::alloc::{AllocError, Global};

/// The status of a command, and its texts for the two sinks: any bytes, since a console holds any.
#[derive(Drop)]
pub struct Answer {
    pub status: Status,
    pub out: Vec<u8>,
    pub report: Vec<u8>,
}

impl Answer {
    ghost use Rattle.file_commands.specs.Ending.{done_ending, refuted_ending};
    ghost use Rattle.file_commands.specs.Answer.{ending_in, ending_of, EndsWithLine};

    /// The command was carried out, and `out` takes this text.
    pub fn done(alloc: Global, text: String) -> Answer
        ensures { ending_in result ≡ done_ending (string_bytes text) }
    {
        Answer {
            status: Status::Done,
            out: text.into_bytes(),
            report: Vec::new(alloc),
        }
    }

    /// The items of a replay aren't a run of its program, and `out` takes this text.
    pub fn refuted(alloc: Global, text: String) -> Answer
        ensures { ending_in result ≡ refuted_ending (string_bytes text) }
    {
        Answer {
            status: Status::Refuted,
            out: text.into_bytes(),
            report: Vec::new(alloc),
        }
    }

    /// The command ended early, and `report` takes this line if there was memory for it.
    pub fn early(
        alloc: Global,
        status: Status,
        line: Result<String, AllocError>,
    ) -> Result<Answer, AllocError>
        ensures { EndsWithLine status line (ending_of result) }
    {
        match line {
            Ok(line) => {
                let out = Vec::new(alloc);
                Ok(Answer {
                    status,
                    out,
                    report: line.into_bytes(),
                })
            }
            Err(error) => Err(error),
        }
    }
}
