//! Replacing a file by a new one that is made beside it.

use crate::host::HostError;
use crate::kinds::open_to_write;
use std::alloc::{AllocError, Global};
use std::fs::{OpenFile, OpenOptions, Permissions};
use std::io::{ErrorKind, Write};
use std::os::unix::fs::{OpenOptionsExt, PermissionsExt};
use std::rt::Files;
use std::{fs, io};

/// The bits of a file's mode that say who may read, write and run it.
const ACCESS: u32 = 0o777;

/// Those of a new file whose own access bits come later.
const PRIVATE: u32 = 0o600;

/// Those of any new file, of which the process's mask takes some off.
const ANY_NEW: u32 = 0o666;

/// What the new files are called: `.PROGRAM-N.tmp`, with N from `first` on.
#[derive(Clone, Copy)]
pub(crate) struct NewNames {
    pub(crate) program: &'static str,
    pub(crate) first: u32,
}

/// Writes a plain file by way of a new one beside it, and anything else straight, if that is done at all.
pub(crate) fn write_file<R: Files>(
    alloc: Global,
    files: &R,
    names: NewNames,
    name: &str,
    bytes: &[u8],
) -> Result<(), HostError> {
    match fs::symlink_metadata(files, name) {
        Ok(about) if about.is_file() => {
            let access = access_of(files, name)?;
            replace(alloc, files, names, name, Some(access), bytes)
        }
        Ok(_) => write_straight(alloc, files, name, bytes),
        Err(error) if error.kind() == ErrorKind::NotFound => {
            replace(alloc, files, names, name, None, bytes)
        }
        Err(_) => Err(HostError::Failed),
    }
}

/// The access bits of the plain file at the name, if it may be written.
fn access_of<R: Files>(files: &R, name: &str) -> Result<Permissions, HostError> {
    let mut how = OpenOptions::new();
    how.write(true);
    let Ok(target) = how.open(files, name) else {
        return Err(HostError::Failed);
    };
    match target.metadata() {
        Ok(about) if about.is_file() => {
            Ok(Permissions::from_mode(about.permissions().mode() & ACCESS))
        }
        Ok(_) | Err(_) => Err(HostError::Failed),
    }
}

/// Writes into what is no plain file.
fn write_straight<R: Files>(
    alloc: Global,
    files: &R,
    name: &str,
    bytes: &[u8],
) -> Result<(), HostError> {
    let mut target = open_to_write(alloc, files, name)?;
    target.write_all(bytes).map_err(|_| HostError::Failed)
}

/// Makes a new file beside the name, renames it over the name, and waits until the disk has the name. Where
/// a step up to the rename fails, the new file is removed.
fn replace<R: Files>(
    alloc: Global,
    files: &R,
    names: NewNames,
    name: &str,
    permissions: Option<Permissions>,
    bytes: &[u8],
) -> Result<(), HostError> {
    let folder = open_folder(files, name)?;
    let mode = if permissions.is_some() {
        PRIVATE
    } else {
        ANY_NEW
    };
    let (beside, file) = make_beside(alloc, files, names, name, mode)?;
    let done = match fill(file, permissions, bytes) {
        Ok(()) => rename(files, beside.as_str(), name),
        Err(error) => Err(error),
    };
    if done.is_err() {
        remove(files, beside.as_str());
        return Err(HostError::Failed);
    }
    flush_names(&folder)
}

/// Stays a function of its own, as `remove` does: std keeps copies of 4096 bytes of both names on the stack,
/// which would stand below every other call of a store.
#[inline(never)]
fn rename<R: Files>(files: &R, from: &str, to: &str) -> io::Result<()> {
    fs::rename(files, from, to)
}

/// Removes a new file, if the system lets it.
#[inline(never)]
fn remove<R: Files>(files: &R, name: &str) {
    let _ = fs::remove_file(files, name);
}

/// The folder of this name, open to be flushed. One that may not be read is `Failed`, before anything changes.
fn open_folder<R: Files>(files: &R, name: &str) -> Result<R::File, HostError> {
    let path = match name.rsplit_once('/') {
        Some(("", _)) => "/",
        Some((folder, _)) => folder,
        None => ".",
    };
    fs::open(files, path).map_err(|_| HostError::Failed)
}

/// Waits until the disk has a folder's names. A file system without such a flush says so, and there is
/// nothing to wait for.
fn flush_names<F: OpenFile>(folder: &F) -> Result<(), HostError> {
    match folder.sync_all() {
        Ok(()) => Ok(()),
        Err(error) if error.kind() == ErrorKind::InvalidInput => Ok(()),
        Err(_) => Err(HostError::Failed),
    }
}

/// A new file in the folder of this name, open for writing, with its own name. A file that stands
/// there already is left as it is, and the next number is tried.
fn make_beside<R: Files>(
    alloc: Global,
    files: &R,
    names: NewNames,
    name: &str,
    mode: u32,
) -> Result<(String, R::File), HostError> {
    let mut how = OpenOptions::new();
    how.write(true).create_new(true).mode(mode);
    for number in u64::from(names.first)..u64::MAX {
        let beside = name_beside(alloc, names.program, name, number)?;
        match how.open(files, beside.as_str()) {
            Ok(file) => return Ok((beside, file)),
            Err(error) if error.kind() == ErrorKind::AlreadyExists => {}
            Err(_) => return Err(HostError::Failed),
        }
    }
    Err(HostError::Failed)
}

/// A name in the folder of this name. It is short, whatever the name's own length.
pub(crate) fn name_beside(
    alloc: Global,
    program: &str,
    name: &str,
    number: u64,
) -> Result<String, AllocError> {
    match name.rsplit_once('/') {
        Some((folder, _)) => format!(in alloc; "{folder}/.{program}-{number}.tmp"),
        None => format!(in alloc; ".{program}-{number}.tmp"),
    }
}

/// Gives a new file its bytes and then its permissions, and waits until the disk has them.
fn fill<F: Write + OpenFile + Drop>(
    mut file: F,
    permissions: Option<Permissions>,
    bytes: &[u8],
) -> io::Result<()> {
    file.write_all(bytes)?;
    if let Some(permissions) = permissions {
        file.set_permissions(permissions)?;
    }
    file.sync_all()
}
