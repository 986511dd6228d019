//! Why a system call is refused.

ghost use Rattle.std.specs.Prelude.{◌≡◌};
ghost use Rattle.call_log.specs.Errno.{errno_number, refusal};

/// The errors of Linux (`errno-base.h` and `errno.h`) that calls are refused with.
#[derive(Clone, Copy, Debug, PartialEq, Eq)]
pub enum Errno {
    /// No such file or directory.
    Enoent,
    /// Argument list too long.
    E2big,
    /// Bad file descriptor.
    Ebadf,
    /// No child processes.
    Echild,
    /// Resource temporarily unavailable.
    Eagain,
    /// Cannot allocate memory.
    Enomem,
    /// Permission denied.
    Eacces,
    /// File exists.
    Eexist,
    /// No such device.
    Enodev,
    /// Not a directory.
    Enotdir,
    /// Is a directory.
    Eisdir,
    /// Invalid argument.
    Einval,
    /// Too many open files.
    Emfile,
    /// Inappropriate ioctl for device.
    Enotty,
    /// File too large.
    Efbig,
    /// No space left on device.
    Enospc,
    /// Illegal seek.
    Espipe,
    /// Broken pipe.
    Epipe,
    /// File name too long.
    Enametoolong,
    /// Function not implemented.
    Enosys,
    /// Directory not empty.
    Enotempty,
    /// Value too large for defined data type.
    Eoverflow,
}

impl Errno {
    /// The error's number in Linux.
    pub fn number(self) -> u32
        ensures { result ≡ errno_number self }
    {
        match self {
            Errno::Enoent => 2,
            Errno::E2big => 7,
            Errno::Ebadf => 9,
            Errno::Echild => 10,
            Errno::Eagain => 11,
            Errno::Enomem => 12,
            Errno::Eacces => 13,
            Errno::Eexist => 17,
            Errno::Enodev => 19,
            Errno::Enotdir => 20,
            Errno::Eisdir => 21,
            Errno::Einval => 22,
            Errno::Emfile => 24,
            Errno::Enotty => 25,
            Errno::Efbig => 27,
            Errno::Enospc => 28,
            Errno::Espipe => 29,
            Errno::Epipe => 32,
            Errno::Enametoolong => 36,
            Errno::Enosys => 38,
            Errno::Enotempty => 39,
            Errno::Eoverflow => 75,
        }
    }

    /// The reply of a call that is refused so.
    #[tactic(auto, unfolding(crate::specs::Errno::refusal))]
    pub fn refusal(self) -> u32
        ensures { result ≡ refusal self }
    {
        u32::MAX - (self.number() - 1)
    }
}
