//! Which kinds of files are read and written: plain files, and of the others those at which nobody waits for
//! a partner that may never come.

use crate::host::HostError;
use std::alloc::Global;
use std::fs;
use std::fs::{Metadata, OpenFile, OpenOptions};
use std::io::ErrorKind;
use std::os::unix::fs::{FileTypeExt, MetadataExt};
use std::rt::Files;

/// Linux's numbers of the devices null, zero and full, at which no call waits.
const NEVER_WAITING: [u64; 3] = [0x103, 0x105, 0x107];

/// Where the program's own lines go.
const OWN_STREAMS: [&str; 2] = ["/dev/stdout", "/dev/stderr"];

/// Opens what stands at the name, or what a link there leads to, for reading. What isn't read isn't opened
/// either: the open of a pipe with a name waits for its other end.
pub(crate) fn open_to_read<R: Files>(
    alloc: Global,
    files: &R,
    name: &str,
) -> Result<R::File, HostError> {
    let Ok(seen) = fs::metadata(files, name) else {
        return Err(HostError::Failed);
    };
    if !(seen.is_file() || never_waits(&seen) || is_unnamed_pipe(alloc, files, name, &seen)?) {
        return Err(HostError::Failed);
    }
    let mut how = OpenOptions::new();
    how.read(true);
    open_seen(files, &how, name, &seen)
}

/// Opens what a link leads to, or what stands there and is no plain file, to be written straight.
pub(crate) fn open_to_write<R: Files>(
    alloc: Global,
    files: &R,
    name: &str,
) -> Result<R::File, HostError> {
    let Ok(seen) = fs::metadata(files, name) else {
        return Err(HostError::Failed);
    };
    if !(never_waits(&seen)
        || is_own_stream(files, &seen)
        || is_unnamed_pipe(alloc, files, name, &seen)?)
    {
        return Err(HostError::Failed);
    }
    let mut how = OpenOptions::new();
    how.write(true);
    open_seen(files, &how, name, &seen)
}

/// Opens what was seen at the name. Where something of another kind stands there by now, it is let go.
fn open_seen<R: Files>(
    files: &R,
    how: &OpenOptions,
    name: &str,
    seen: &Metadata,
) -> Result<R::File, HostError> {
    let Ok(file) = how.open(files, name) else {
        return Err(HostError::Failed);
    };
    match file.metadata() {
        Ok(about) if about.file_type() == seen.file_type() && about.rdev() == seen.rdev() => Ok(
            file,
        ),
        Ok(_) | Err(_) => Err(HostError::Failed),
    }
}

fn never_waits(seen: &Metadata) -> bool {
    seen.file_type().is_char_device() && NEVER_WAITING.contains(&seen.rdev())
}

/// Whether this is the device, a terminal for instance, to which the program writes its own lines. A write
/// there waits no longer than those do.
fn is_own_stream<R: Files>(files: &R, seen: &Metadata) -> bool {
    if !seen.file_type().is_char_device() {
        return false;
    }
    for stream in OWN_STREAMS {
        if let Ok(own) = fs::metadata(files, stream)
            && own.file_type().is_char_device()
            && own.rdev() == seen.rdev()
        {
            return true;
        }
    }
    false
}

/// Whether this is a pipe that no path leads to, as `|` of a shell makes it: the name is that of a descriptor
/// that is open already, and an open of it waits for nobody. It stays a function of its own, since it takes
/// much of the stack.
#[inline(never)]
fn is_unnamed_pipe<R: Files>(
    alloc: Global,
    files: &R,
    name: &str,
    seen: &Metadata,
) -> Result<bool, HostError> {
    if !seen.file_type().is_fifo() {
        return Ok(false);
    }
    match files.canonicalize(alloc, name) {
        Ok(_) => Ok(false),
        Err(error) => leads_nowhere(error.kind()),
    }
}

/// Whether a name has no path behind it, by why none was found.
fn leads_nowhere(kind: ErrorKind) -> Result<bool, HostError> {
    match kind {
        ErrorKind::NotFound => Ok(true),
        ErrorKind::OutOfMemory => Err(HostError::Memory),
        _ => Ok(false),
    }
}
