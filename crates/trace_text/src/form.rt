//! How the arguments of each call are shown.

ghost use Rattle.std.specs.Prelude.{◌≡◌, ◌≤◌, length};
ghost use Rattle.trace_text.specs.Forms.{forms_of};

use crate::call::Call;

/// How an argument is shown.
#[derive(Clone, Copy, PartialEq, Eq)]
pub enum Form {
    /// As a signed number.
    Decimal,
    /// As eight hexadecimal digits.
    Word,
    /// It is an address: what was read there up to the first zero, in quotes.
    Path,
    /// It is an address: the first bytes that were read there, in quotes.
    Data,
}

/// The forms of a call's arguments from a0 on, and those of all six where it isn't served.
pub fn forms_of(call: Option<Call>) -> &'static [Form]
    ensures forms { result.now ≡ forms_of call }
    ensures few { length result.now ≤ 6 }
{
    use Form::{Data, Decimal, Path, Word};
    match call {
        None => &[Word, Word, Word, Word, Word, Word],
        Some(Call::SchedYield | Call::Getpid | Call::Getppid | Call::Gettid) => &[],
        Some(Call::Dup | Call::Close | Call::Exit | Call::ExitGroup) => &[Decimal],
        Some(Call::SetTidAddress | Call::Brk) => &[Word],
        Some(Call::Dup3) => &[Decimal, Decimal, Word],
        Some(Call::Ioctl) => &[Decimal, Word, Word],
        Some(Call::Mkdirat | Call::Unlinkat) => &[Decimal, Path, Word],
        Some(Call::Openat) => &[Decimal, Path, Word, Word],
        Some(Call::Execve) => &[Path, Word, Word],
        Some(Call::Pipe2 | Call::Clone) => &[Word, Word],
        Some(Call::Munmap) => &[Word, Decimal],
        Some(Call::Write) => &[Decimal, Data, Decimal],
        Some(Call::Getdents64 | Call::Read | Call::Readv | Call::Writev) => &[
            Decimal, Word, Decimal,
        ],
        Some(Call::Llseek) => &[Decimal, Decimal, Decimal, Word, Decimal],
        Some(Call::Waitid) => &[Decimal, Decimal, Word, Word, Word],
        Some(Call::Mmap2) => &[Word, Decimal, Word, Word, Decimal, Decimal],
    }
}
