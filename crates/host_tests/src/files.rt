//! The host over real files, in a folder of the test's own, and over files of which one step fails.

use host_io::{FolderHost, Host, HostError};
use std::alloc::AllocError;
use std::test::Fail;
use std::{env, fs, io, process};

pub(crate) mod broken_files;
mod folder;
mod kinds;
mod names;
mod steps;

/// A new folder of this name, for this process alone.
fn make_folder(rt: &HostRuntime, name: &str) -> io::Result<String> {
    let temporary = env::temp_dir(rt)?;
    let number = process::id(rt.process());
    let folder = format!(in rt.alloc();
        "{}/host_tests-{name}-{number}",
        temporary.as_path().display()
    )?;
    fs::create_dir(rt, folder.as_str())?;
    Ok(folder)
}

/// A name in a folder; a name that begins with a slash is what it is, and the empty one the folder itself.
pub(crate) fn path_in(rt: &HostRuntime, folder: &str, name: &str) -> Result<String, AllocError> {
    if name.starts_with('/') {
        String::from_str(rt.alloc(), name)
    } else if name.is_empty() {
        String::from_str(rt.alloc(), folder)
    } else {
        format!(in rt.alloc(); "{folder}/{name}")
    }
}

/// Puts a file into a folder.
fn put_file(rt: &HostRuntime, folder: &str, name: &str, bytes: &[u8]) -> Result<(), Fail> {
    let path = path_in(rt, folder, name)?;
    fs::write(rt, path.as_str(), bytes)?;
    Ok(())
}

/// Whether a file in a folder has these bytes.
fn has_file(rt: &HostRuntime, folder: &str, name: &str, bytes: &[u8]) -> Result<bool, Fail> {
    let path = path_in(rt, folder, name)?;
    Ok(fs::read(rt, path.as_str())?.as_slice() == bytes)
}

/// What a host answers to a store.
fn store_in<H: Host>(
    rt: &HostRuntime,
    host: &mut H,
    folder: &str,
    name: &str,
    bytes: &[u8],
) -> Result<Result<(), HostError>, AllocError> {
    let path = path_in(rt, folder, name)?;
    Ok(host.store(rt.alloc(), path.as_str(), bytes))
}

/// Removes the files of these names, all of which are there.
fn remove_files(rt: &HostRuntime, folder: &str, names: &[&str]) -> Result<(), Fail> {
    for name in names {
        let path = path_in(rt, folder, name)?;
        fs::remove_file(rt, path.as_str())?;
    }
    Ok(())
}

/// Removes a folder, in which nothing may stand.
fn remove_folder(rt: &HostRuntime, folder: &str) -> Result<(), Fail> {
    fs::remove_dir(rt, folder)?;
    Ok(())
}

/// A host over the real files.
fn real_host(rt: &HostRuntime) -> Result<FolderHost<HostRuntime>, AllocError> {
    Ok(FolderHost::new(rt.clone()?, "host_io", 7))
}
