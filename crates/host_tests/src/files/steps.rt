//! Stores of which one step fails: the old file stays as it was, or the new one stands, and never another one.

use super::broken_files::{Step, broken_host};
use super::{has_file, make_folder, remove_files, remove_folder, store_in};
use host_io::HostError;
use std::test::Fail;

/// What is broken, the name and the bytes of a store, its answer, and a file and its bytes then.
type Row = (
    Step,
    &'static str,
    &'static [u8],
    Result<(), HostError>,
    (&'static str, &'static [u8]),
);

const FAILED: Result<(), HostError> = Err(HostError::Failed);

/// In turn, in a folder that is empty at first. Each store writes at most two bytes at a time.
static STORES: [Row; 18] = [
    // a new file is given no access bits, so that no step of the first store fails
    (Step::Access, "a.flt", b"newer", Ok(()), ("a.flt", b"newer")),
    (Step::None, "a.flt", b"old", Ok(()), ("a.flt", b"old")),
    (Step::Look, "a.flt", b"newer", FAILED, ("a.flt", b"old")),
    (Step::Look, "missing", b"newer", FAILED, ("a.flt", b"old")),
    (Step::Look, "/dev/null", b"newer", FAILED, ("a.flt", b"old")),
    (Step::Folder, "a.flt", b"newer", FAILED, ("a.flt", b"old")),
    (Step::Folder, "missing", b"newer", FAILED, ("a.flt", b"old")),
    (Step::Access, "a.flt", b"newer", FAILED, ("a.flt", b"old")),
    (Step::Write, "a.flt", b"newer", FAILED, ("a.flt", b"old")),
    (Step::Write, "missing", b"newer", FAILED, ("a.flt", b"old")),
    (
        Step::Write,
        "/dev/null",
        b"newer",
        FAILED,
        ("a.flt", b"old"),
    ),
    (Step::Sync, "a.flt", b"newer", FAILED, ("a.flt", b"old")),
    (Step::Sync, "missing", b"newer", FAILED, ("a.flt", b"old")),
    (Step::Rename, "a.flt", b"newer", FAILED, ("a.flt", b"old")),
    (Step::Rename, "missing", b"newer", FAILED, ("a.flt", b"old")),
    // what fails here is the flush of the folder alone: the new file stands by then. Where a file system has no such
    // flush, it isn't missed
    (
        Step::FolderSync,
        "new.flt",
        b"first",
        FAILED,
        ("new.flt", b"first"),
    ),
    (
        Step::FolderSync,
        "a.flt",
        b"second",
        FAILED,
        ("a.flt", b"second"),
    ),
    (
        Step::NoFolderSync,
        "a.flt",
        b"third",
        Ok(()),
        ("a.flt", b"third"),
    ),
];

/// Whether a store is answered so, and leaves these bytes.
fn is_stored(rt: &HostRuntime, folder: &str, row: &Row) -> Result<bool, Fail> {
    let (step, name, bytes, want, (file, left)) = row;
    let answer = store_in(rt, &mut broken_host(rt, *step)?, folder, name, bytes)?;
    Ok(answer == *want && has_file(rt, folder, file, left)?)
}

#[test]
fn a_store_that_fails_leaves_one_file(rt: HostRuntime) -> Result<(), Fail> {
    let folder = make_folder(&rt, "steps")?;
    for row in &STORES {
        assert!(rt; is_stored(&rt, &folder, row)?, "{}", row.1);
    }
    remove_files(&rt, &folder, &["a.flt", "new.flt"])?;
    remove_folder(&rt, &folder)
}
