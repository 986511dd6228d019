//! The names of errors.

ghost use Rattle.std.specs.Prelude.{◌≡◌};
ghost use Rattle.trace_text.specs.Errors.{error_name, error_of, is_error};

use call_log::Errno;

/// Whether a reply is one of the last 4,095 words, with which Linux answers errors.
pub(crate) fn is_error(reply: u32) -> bool
    ensures { result ≡ is_error reply }
{
    reply >= 0xffff_f001
}

/// The error with this number, if a call is refused with it.
#[tactic(auto, unfolding(crate::specs::Errors::error_of))]
pub(crate) fn error_of(number: u32) -> Option<Errno>
    ensures { result ≡ error_of number }
{
    Some(match number {
        2 => Errno::Enoent,
        7 => Errno::E2big,
        9 => Errno::Ebadf,
        10 => Errno::Echild,
        11 => Errno::Eagain,
        12 => Errno::Enomem,
        13 => Errno::Eacces,
        17 => Errno::Eexist,
        19 => Errno::Enodev,
        20 => Errno::Enotdir,
        21 => Errno::Eisdir,
        22 => Errno::Einval,
        24 => Errno::Emfile,
        25 => Errno::Enotty,
        27 => Errno::Efbig,
        28 => Errno::Enospc,
        29 => Errno::Espipe,
        32 => Errno::Epipe,
        36 => Errno::Enametoolong,
        38 => Errno::Enosys,
        39 => Errno::Enotempty,
        75 => Errno::Eoverflow,
        _ => return None,
    })
}

/// Its name, as in Linux's header files.
pub(crate) fn error_name(error: Errno) -> &'static str
    ensures { result.now ≡ error_name error }
{
    match error {
        Errno::Enoent => "ENOENT",
        Errno::E2big => "E2BIG",
        Errno::Ebadf => "EBADF",
        Errno::Echild => "ECHILD",
        Errno::Eagain => "EAGAIN",
        Errno::Enomem => "ENOMEM",
        Errno::Eacces => "EACCES",
        Errno::Eexist => "EEXIST",
        Errno::Enodev => "ENODEV",
        Errno::Enotdir => "ENOTDIR",
        Errno::Eisdir => "EISDIR",
        Errno::Einval => "EINVAL",
        Errno::Emfile => "EMFILE",
        Errno::Enotty => "ENOTTY",
        Errno::Efbig => "EFBIG",
        Errno::Enospc => "ENOSPC",
        Errno::Espipe => "ESPIPE",
        Errno::Epipe => "EPIPE",
        Errno::Enametoolong => "ENAMETOOLONG",
        Errno::Enosys => "ENOSYS",
        Errno::Enotempty => "ENOTEMPTY",
        Errno::Eoverflow => "EOVERFLOW",
    }
}
