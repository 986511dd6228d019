//! How a step of a command ends it.
ghost use Rattle.std.specs.Prelude.{◌≡◌};
ghost use Rattle.file_commands.specs.declared.ended.Ended.TheVariants.{Memory};
ghost use Rattle.file_commands.specs.Answer.{ending_of, settled_ending};

use crate::answer::Answer;
use crate::status::Status;
use std::alloc::{AllocError, AllocFailed, Global};

/// What a command ends with at a step that gives nothing to go on with: the error of such a step, which `?` passes on.
#[derive(Drop)]
pub enum Ended {
    /// With this answer.
    Early(Answer),
    /// Out of memory.
    Memory,
}

impl From<AllocError> for Ended {
    ghost from_gives = { λ _ e. e ≡ Memory };

    fn from(_error: AllocError) -> Ended {
        Ended::Memory
    }
}

impl<T: Drop> From<AllocFailed<T>> for Ended {
    ghost from_gives = { λ _ e. e ≡ Memory };

    fn from(_error: AllocFailed<T>) -> Ended {
        Ended::Memory
    }
}

impl Ended {
    ghost use Rattle.file_commands.specs.Answer.{ending_at, EndsWithLine};

    /// `report` takes this line if there was memory for it.
    pub fn early(alloc: Global, status: Status, line: Result<String, AllocError>) -> Ended
        ensures { EndsWithLine status line (ending_at result) }
    {
        match line {
            Ok(line) => Ended::Early(Answer {
                status,
                out: Vec::new(alloc),
                report: line.into_bytes(),
            }),
            Err(_) => Ended::Memory,
        }
    }

    /// What the command answers.
    pub fn answer(self) -> Result<Answer, AllocError>
        ensures { ending_of result ≡ ending_at self }
    {
        match self {
            Ended::Early(answer) => Ok(answer),
            Ended::Memory => Err(AllocError),
        }
    }
}

/// What a command answers that went through its steps, or was ended by one of them.
pub fn settled(steps: Result<Answer, Ended>) -> Result<Answer, AllocError>
    ensures { ending_of result ≡ settled_ending steps }
{
    match steps {
        Ok(answer) => Ok(answer),
        Err(ended) => ended.answer(),
    }
}
