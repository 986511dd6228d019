//! What a folder holds behind loads and stores.

use super::broken_files::{Step, bits_of, broken_host};
use super::{
    has_file, make_folder, path_in, put_file, real_host, remove_files, remove_folder, store_in,
};
use crate::loads::{Load, are_loaded};
use host_io::{Host, HostError, Loaded};
use std::alloc::{AllocError, Global};
use std::os::unix::fs::{PermissionsExt, symlink};
use std::test::Fail;
use std::{fs, io};

const FAILED: Result<Loaded, HostError> = Err(HostError::Failed);

static LOADS: [Load; 6] = [
    ("a.flt", 3, Ok(Loaded::All), 3),
    ("a.flt", 2, Ok(Loaded::TooLong), 0),
    ("missing", 9, FAILED, 0),
    ("", 9, FAILED, 0),
    ("/dev/zero", 9, Ok(Loaded::TooLong), 0),
    ("/dev/null", 0, Ok(Loaded::All), 0),
];

fn loads(rt: &HostRuntime, folder: &str) -> Result<bool, Fail> {
    put_file(rt, folder, "a.flt", b"abc")?;
    let loads = are_loaded(rt, &mut real_host(rt)?, folder, b"abc", &LOADS)?;
    remove_files(rt, folder, &["a.flt"])?;
    Ok(loads)
}

/// Loads of a file by short and interrupted reads, of which the last one fails or not.
static SLOW_LOADS: [(Step, Load); 4] = [
    (Step::None, ("a.elf", 6, Ok(Loaded::All), 6)),
    (Step::None, ("a.elf", 5, Ok(Loaded::TooLong), 0)),
    (Step::Read, ("a.elf", 5, Ok(Loaded::TooLong), 0)),
    (Step::Read, ("a.elf", 6, FAILED, 0)),
];

fn loads_slowly(rt: &HostRuntime, folder: &str) -> Result<bool, Fail> {
    put_file(rt, folder, "a.elf", b"slowly")?;
    for (step, load) in &SLOW_LOADS {
        let mut host = broken_host(rt, *step)?;
        if !are_loaded(rt, &mut host, folder, b"slowly", &[*load])? {
            return Ok(false);
        }
    }
    remove_files(rt, folder, &["a.elf"])?;
    Ok(true)
}

static LONG_LOADS: [Load; 3] = [
    ("long", 200_001, Ok(Loaded::All), 200_001),
    ("long", 200_000, Ok(Loaded::TooLong), 0),
    ("long", 16_384, Ok(Loaded::TooLong), 0),
];

/// 200,001 bytes.
fn long_content(alloc: Global) -> Result<Vec<u8>, AllocError> {
    let mut bytes = vec![in alloc; 0u8; 200_001]?;
    for (number, byte) in bytes.iter_mut().enumerate() {
        *byte = (number % 251) as u8;
    }
    Ok(bytes)
}

fn loads_long(rt: &HostRuntime, folder: &str, content: &[u8]) -> Result<bool, Fail> {
    put_file(rt, folder, "long", content)?;
    let loads = are_loaded(rt, &mut real_host(rt)?, folder, content, &LONG_LOADS)?;
    remove_files(rt, folder, &["long"])?;
    Ok(loads)
}

#[test]
fn folder_host_loads(rt: HostRuntime) -> Result<(), Fail> {
    let folder = make_folder(&rt, "loads")?;
    let content = long_content(rt.alloc())?;
    let plain = loads(&rt, &folder)?;
    let slowly = loads_slowly(&rt, &folder)?;
    let long = loads_long(&rt, &folder, &content)?;
    assert!(rt; plain && slowly && long, "{plain} {slowly} {long}");
    remove_folder(&rt, &folder)
}

/// Names, bytes, and what a store of them is answered. `link` leads to `a.flt`, and `dangling` to nothing.
static STORES: [(&str, &[u8], Result<(), HostError>); 7] = [
    ("link", b"linked", Err(HostError::Failed)),
    ("dangling", b"linked", Err(HostError::Failed)),
    ("a.flt", b"newer", Ok(())),
    ("", b"x", Err(HostError::Failed)),
    ("/no such folder/a.flt", b"x", Err(HostError::Failed)),
    ("/dev/null", b"x", Ok(())),
    ("/dev/full", b"x", Err(HostError::Failed)),
];

/// Makes a link in a folder.
fn put_link(rt: &HostRuntime, folder: &str, target: &str, name: &str) -> Result<(), Fail> {
    let path = path_in(rt, folder, name)?;
    symlink(rt, target, path.as_str())?;
    Ok(())
}

/// Makes a file, a link to it, and a link to none.
fn put_links(rt: &HostRuntime, folder: &str) -> Result<(), Fail> {
    put_file(rt, folder, "a.flt", b"old, and longer")?;
    let file = path_in(rt, folder, "a.flt")?;
    put_link(rt, folder, &file, "link")?;
    put_link(rt, folder, "none", "dangling")
}

fn is_link(rt: &HostRuntime, folder: &str, name: &str) -> Result<bool, Fail> {
    let path = path_in(rt, folder, name)?;
    Ok(fs::symlink_metadata(rt, path.as_str())?.is_symlink())
}

/// Whether stores are answered so.
fn are_stored(rt: &HostRuntime, folder: &str) -> Result<bool, Fail> {
    let mut host = real_host(rt)?;
    for (name, bytes, want) in &STORES {
        if store_in(rt, &mut host, folder, name, bytes)? != *want {
            return Ok(false);
        }
    }
    Ok(true)
}

/// Whether the file has other bytes then, and the links are as they were.
fn stores(rt: &HostRuntime, folder: &str) -> Result<bool, Fail> {
    put_links(rt, folder)?;
    let holds = are_stored(rt, folder)?
        && has_file(rt, folder, "a.flt", b"newer")?
        && has_file(rt, folder, "link", b"newer")?
        && is_link(rt, folder, "dangling")?;
    remove_files(rt, folder, &["a.flt", "link", "dangling"])?;
    Ok(holds)
}

/// A file's access bits before a store, and behind it.
type Bits = (u32, u32);

/// Stores bytes over a file with access bits, in turn: whether it has those behind each that it has to.
fn keeps_bits<H: Host>(
    rt: &HostRuntime,
    host: &mut H,
    file: &str,
    bytes: &[u8],
    rows: &[Bits],
) -> io::Result<bool> {
    for (before, after) in rows {
        fs::set_permissions(rt, file, fs::Permissions::from_mode(*before))?;
        let are_set = bits_of(rt, file)? == *before;
        let answer = host.store(rt.alloc(), file, bytes);
        if !are_set || answer != Ok(()) || bits_of(rt, file)? != *after {
            return Ok(false);
        }
    }
    Ok(true)
}

/// Nothing is written over these files, since the system itself takes a setuid bit off where a user writes who isn't
/// root.
static BITS: [Bits; 3] = [(0o600, 0o600), (0o755, 0o755), (0o4755, 0o755)];

/// The store fails where others may open what is written, or the bits aren't the old file's at the rename.
static PRIVATE_BITS: [Bits; 4] = [
    (0o600, 0o600),
    (0o640, 0o640),
    (0o644, 0o644),
    (0o755, 0o755),
];

fn keeps_all_bits(rt: &HostRuntime, folder: &str) -> Result<bool, Fail> {
    put_file(rt, folder, "a.flt", b"old")?;
    let file = path_in(rt, folder, "a.flt")?;
    let real = keeps_bits(rt, &mut real_host(rt)?, &file, b"", &BITS)?;
    let mut host = broken_host(rt, Step::Leak)?;
    let private = keeps_bits(rt, &mut host, &file, b"newer", &PRIVATE_BITS)?;
    remove_files(rt, folder, &["a.flt"])?;
    Ok(real && private)
}

/// Whether a new file has the bits of any.
fn gives_bits(rt: &HostRuntime, folder: &str) -> Result<bool, Fail> {
    put_file(rt, folder, "other", b"x")?;
    let other = path_in(rt, folder, "other")?;
    let new = path_in(rt, folder, "new.flt")?;
    let answer = real_host(rt)?.store(rt.alloc(), new.as_str(), b"x");
    let holds = answer == Ok(()) && bits_of(rt, &new)? == bits_of(rt, &other)?;
    remove_files(rt, folder, &["new.flt", "other"])?;
    Ok(holds)
}

/// The numbers of the files that another run left in the folder of a store.
const FIRST_LEFT: u32 = 7;

const END_LEFT: u32 = 2507;

fn left_name(rt: &HostRuntime, folder: &str, number: u32) -> io::Result<String> {
    Ok(format!(in rt.alloc(); "{folder}/.host_io-{number}.tmp")?)
}

fn leave_files(rt: &HostRuntime, folder: &str) -> io::Result<()> {
    for number in FIRST_LEFT..END_LEFT {
        let left = left_name(rt, folder, number)?;
        fs::write(rt, left.as_str(), b"left")?;
    }
    Ok(())
}

/// Removes these files, and says whether they were as they had been left.
fn take_left(rt: &HostRuntime, folder: &str) -> io::Result<bool> {
    let mut are_left = true;
    for number in FIRST_LEFT..END_LEFT {
        let left = left_name(rt, folder, number)?;
        are_left = are_left && fs::read(rt, left.as_str())?.as_slice() == b"left".as_slice();
        fs::remove_file(rt, left.as_str())?;
    }
    Ok(are_left)
}

/// Whether a store takes a number that no other run left, and leaves what those left.
fn leaves_others(rt: &HostRuntime, folder: &str) -> Result<bool, Fail> {
    leave_files(rt, folder)?;
    let answer = store_in(rt, &mut real_host(rt)?, folder, "a.flt", b"new")?;
    let is_new = has_file(rt, folder, "a.flt", b"new")?;
    let are_left = take_left(rt, folder)?;
    remove_files(rt, folder, &["a.flt"])?;
    Ok(answer == Ok(()) && is_new && are_left)
}

#[test]
fn folder_host_stores(rt: HostRuntime) -> Result<(), Fail> {
    let folder = make_folder(&rt, "stores")?;
    let stores = stores(&rt, &folder)?;
    let keeps = keeps_all_bits(&rt, &folder)?;
    let gives = gives_bits(&rt, &folder)?;
    let leaves = leaves_others(&rt, &folder)?;
    assert!(rt;
        stores && keeps && gives && leaves,
        "{stores} {keeps} {gives} {leaves}"
    );
    remove_folder(&rt, &folder)
}
