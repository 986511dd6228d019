//! What a call that gives bytes makes of files and descriptors.

use call_log::{Errno, Got};
use fd_tables::Ends;
use std::alloc::Global;

/// What changes once the bytes are given.
#[derive(Clone, Copy, PartialEq, Eq)]
pub enum Then {
    /// Nothing.
    Nothing,
    /// The position of a descriptor's open file.
    Move { fd: u32, at: u64 },
    /// So many bytes go from the front of the console's input.
    Take(u32),
    /// So many bytes go from the front of a pipe.
    TakePipe { id: u32, n: u32 },
    /// A pipe is made, with its ends at the two lowest descriptors that are free.
    MakePipe { ends: Ends, cloexec: bool },
}

/// What a call gives: its reply, the bytes that go into its caller's memory, and what changes then.
#[derive(Drop)]
pub struct Outcome {
    pub value: u32,
    /// None of the ranges is empty.
    pub got: Vec<Got>,
    pub then: Then,
}

impl Outcome {
    ghost use Rattle.std.specs.Prelude.{◌≡◌, []};
    ghost use Rattle.call_log.specs.Errno.{refusal};
    ghost use Rattle.file_calls.specs.declared.outcome.Then.TheVariants.{Nothing};

    /// A refusal: its reply alone.
    pub(crate) fn refusal(alloc: Global, errno: Errno) -> Outcome
        ensures value { result.value ≡ refusal errno }
        ensures got { result.got.items ≡ [] }
        ensures then { result.then ≡ Nothing }
    {
        Outcome {
            value: errno.refusal(),
            got: Vec::new(alloc),
            then: Then::Nothing,
        }
    }
}
