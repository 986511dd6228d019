//! What came of a system call.

use rv32im_step::Access;

/// What came of a system call.
#[derive(Clone, Copy, PartialEq, Eq)]
pub enum Served {
    /// It has its reply, and the process goes on.
    Replied,
    /// It has its reply, and the turn is over.
    TurnEnds,
    /// It has no reply: the process waits, and makes it anew.
    Waits,
    /// The process ended.
    Ended,
    /// It would read or write what its process's space doesn't own, and nothing was done.
    Stray(Access),
    /// The log has no room for it, and nothing was done; but that it strays is noted, where a run goes on that met no stray access yet.
    LogFull,
}
