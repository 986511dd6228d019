//! How a call ends.
ghost use Rattle.std.specs.Prelude.{◌≡◌};
ghost use Rattle.file_commands.specs.Status.{code_of};

/// How a call of `suite` ended. Its code is the exit status of the program.
#[derive(Clone, Copy, PartialEq, Eq)]
pub enum Status {
    /// The command was carried out.
    Done,
    /// The arguments are no command.
    Usage,
    /// The host failed at a load.
    HostRead,
    /// The input has a fault.
    Refused,
    /// The next access of a program isn't to bytes of its own, or writes what it may not write.
    Stray,
    /// The quanta of a run are used up, and a process may run.
    OutOfQuanta,
    /// The log of a run has no room for the next call.
    LogFull,
    /// A sink failed.
    SinkWrite,
    /// Out of memory.
    Memory,
    /// The host failed at a store.
    HostWrite,
    /// Processes live, and none may run: all wait or stand still.
    Stuck,
    /// The items of a replay aren't a run of its program.
    Refuted,
}

impl Status {
    /// The exit status of the program.
    pub fn code(self) -> u8
        ensures { result ≡ code_of self }
    {
        match self {
            Status::Done => 0,
            Status::Usage => 1,
            Status::HostRead => 2,
            Status::Refused => 3,
            Status::Stray => 4,
            Status::OutOfQuanta => 5,
            Status::LogFull => 6,
            Status::SinkWrite => 7,
            Status::Memory => 8,
            Status::HostWrite => 9,
            Status::Stuck => 10,
            Status::Refuted => 11,
        }
    }
}
