//! The names of the new files that stores make.

use super::broken_files::{Names, named_host};
use super::{make_folder, path_in, remove_files, remove_folder};
use host_io::Host;
use std::test::Fail;

/// A target, its folder, and the new file beside it.
type Row = (&'static str, &'static str, &'static str);

static ROWS: [Row; 4] = [
    ("a.flt", ".", ".host_io-7.tmp"),
    ("/a.flt", "/", "/.host_io-7.tmp"),
    ("d/a.flt", "d", "d/.host_io-7.tmp"),
    ("/d/e/a.flt", "/d/e", "/d/e/.host_io-7.tmp"),
];

/// Whether a store opens these names and no others.
fn is_named(rt: &HostRuntime, made: &str, row: &Row) -> Result<bool, Fail> {
    let (target, folder, beside) = *row;
    let names = Names {
        written: path_in(rt, made, "written")?,
        folder,
        beside,
        target,
    };
    Ok(named_host(rt, names)?.store(rt.alloc(), target, b"new") == Ok(()))
}

#[test]
fn a_new_file_has_its_name_in_the_folder_of_its_target(rt: HostRuntime) -> Result<(), Fail> {
    let made = make_folder(&rt, "names")?;
    for row in &ROWS {
        assert!(rt; is_named(&rt, &made, row)?, "{}", row.0);
    }
    remove_files(&rt, &made, &["written"])?;
    remove_folder(&rt, &made)
}
