//! The system calls that are served.

ghost use Rattle.std.specs.Prelude.{◌≡◌};
ghost use Rattle.trace_text.specs.Calls.{call_of, call_name, replies_address};

use call_log::numbers;

/// A system call that is served, named as in Linux (`include/uapi/asm-generic/unistd.h`).
#[derive(Clone, Copy, PartialEq, Eq)]
pub enum Call {
    Dup,
    Dup3,
    Ioctl,
    Mkdirat,
    Unlinkat,
    Openat,
    Close,
    Pipe2,
    Getdents64,
    Llseek,
    Read,
    Write,
    Readv,
    Writev,
    Exit,
    ExitGroup,
    Waitid,
    SetTidAddress,
    SchedYield,
    Getpid,
    Getppid,
    Gettid,
    Brk,
    Munmap,
    Clone,
    Execve,
    Mmap2,
}

impl Call {
    /// The call with this number, if one is served.
    #[tactic(auto, unfolding(crate::specs::Calls::call_of))]
    pub fn of(number: u32) -> Option<Call>
        ensures { result ≡ call_of number }
    {
        Some(match number {
            numbers::DUP => Call::Dup,
            numbers::DUP3 => Call::Dup3,
            numbers::IOCTL => Call::Ioctl,
            numbers::MKDIRAT => Call::Mkdirat,
            numbers::UNLINKAT => Call::Unlinkat,
            numbers::OPENAT => Call::Openat,
            numbers::CLOSE => Call::Close,
            numbers::PIPE2 => Call::Pipe2,
            numbers::GETDENTS64 => Call::Getdents64,
            numbers::LLSEEK => Call::Llseek,
            numbers::READ => Call::Read,
            numbers::WRITE => Call::Write,
            numbers::READV => Call::Readv,
            numbers::WRITEV => Call::Writev,
            numbers::EXIT => Call::Exit,
            numbers::EXIT_GROUP => Call::ExitGroup,
            numbers::WAITID => Call::Waitid,
            numbers::SET_TID_ADDRESS => Call::SetTidAddress,
            numbers::SCHED_YIELD => Call::SchedYield,
            numbers::GETPID => Call::Getpid,
            numbers::GETPPID => Call::Getppid,
            numbers::GETTID => Call::Gettid,
            numbers::BRK => Call::Brk,
            numbers::MUNMAP => Call::Munmap,
            numbers::CLONE => Call::Clone,
            numbers::EXECVE => Call::Execve,
            numbers::MMAP2 => Call::Mmap2,
            _ => return None,
        })
    }

    /// Its name.
    pub fn name(self) -> &'static str
        ensures { result.now ≡ call_name self }
    {
        match self {
            Call::Dup => "dup",
            Call::Dup3 => "dup3",
            Call::Ioctl => "ioctl",
            Call::Mkdirat => "mkdirat",
            Call::Unlinkat => "unlinkat",
            Call::Openat => "openat",
            Call::Close => "close",
            Call::Pipe2 => "pipe2",
            Call::Getdents64 => "getdents64",
            Call::Llseek => "llseek",
            Call::Read => "read",
            Call::Write => "write",
            Call::Readv => "readv",
            Call::Writev => "writev",
            Call::Exit => "exit",
            Call::ExitGroup => "exit_group",
            Call::Waitid => "waitid",
            Call::SetTidAddress => "set_tid_address",
            Call::SchedYield => "sched_yield",
            Call::Getpid => "getpid",
            Call::Getppid => "getppid",
            Call::Gettid => "gettid",
            Call::Brk => "brk",
            Call::Munmap => "munmap",
            Call::Clone => "clone",
            Call::Execve => "execve",
            Call::Mmap2 => "mmap2",
        }
    }
}

/// Whether the reply is an address, as of the calls that move the end of the data or make a mapping.
pub(crate) fn replies_address(call: Option<Call>) -> bool
    ensures { result ≡ replies_address call }
{
    matches!(call, Some(Call::Brk | Call::Mmap2))
}
