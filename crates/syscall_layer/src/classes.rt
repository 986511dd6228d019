//! The classes of system calls.

ghost use Rattle.syscall_layer.specs.Classes.{IsOf};

use call_log::numbers;

/// What a system call is, by what it touches.
#[derive(Clone, Copy)]
pub(crate) enum Class {
    /// Ends its process.
    Exit,
    /// Changes files, descriptors or the console, and writes nothing into memory.
    Change,
    /// Gives its caller bytes of files or pipes, once all of their ranges are tested.
    Output,
    Waitid,
    Munmap,
    Clone,
    Execve,
    Mmap2,
    /// Touches neither files nor memory; or isn't served.
    Effect,
}

/// The class of the calls with this number.
pub(crate) fn class_of(number: u32) -> Class
    ensures { IsOf result number }
{
    match number {
        numbers::EXIT | numbers::EXIT_GROUP => Class::Exit,
        numbers::DUP
        | numbers::DUP3
        | numbers::MKDIRAT
        | numbers::UNLINKAT
        | numbers::OPENAT
        | numbers::CLOSE
        | numbers::WRITE
        | numbers::WRITEV => Class::Change,
        numbers::PIPE2 | numbers::GETDENTS64 | numbers::LLSEEK | numbers::READ | numbers::READV =>
            Class::Output,
        numbers::WAITID => Class::Waitid,
        numbers::MUNMAP => Class::Munmap,
        numbers::CLONE => Class::Clone,
        numbers::EXECVE => Class::Execve,
        numbers::MMAP2 => Class::Mmap2,
        _ => Class::Effect,
    }
}
