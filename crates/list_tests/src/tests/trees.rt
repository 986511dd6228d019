//! A tree at its limits, and `read_at`, which no run calls.

use call_log::Errno;
use mem_files::{FileFault, Tree};
use std::alloc::Global;
use std::test::*;

/// The folder `/d` of number 2, in it the program `ab` of number 3, and the empty file `/f` of number 4.
fn a_tree(alloc: Global) -> Result<Tree, Fail> {
    let mut tree = Tree::new(alloc)?;
    tree.mkdir(b"/d")?;
    tree.create(b"d//ab", b"12".to_vec(alloc)?, Some(7))?;
    tree.create(b"f", Vec::new(alloc), None)?;
    Ok(tree)
}

/// Writes to the file `/f` at a position, and its size and changes then.
static WRITES: [(u64, &[u8], u32, u64); 3] = [(2, b"abcd", 6, 1), (3, b"x", 6, 2), (9, b"", 6, 2)];

/// Positions, how many of four bytes are read there, and what is in their place then.
static READS: [(u64, usize, &[u8]); 3] = [
    (3, 3, b"xcd\x07"),
    (6, 0, b"\x07\x07\x07\x07"),
    (u64::MAX, 0, b"\x07\x07\x07\x07"),
];

fn is_written(tree: &mut Tree) -> bool {
    for &(at, bytes, size, change) in &WRITES {
        let done = tree.write_at(4, at, bytes);
        if done != Ok(()) || tree.size(4) != size || tree.change(4) != change {
            return false;
        }
    }
    tree.bytes(4) == b"\0\0axcd".as_slice()
}

fn is_read(tree: &Tree) -> bool {
    for &(at, n, want) in &READS {
        let mut got = [7; 4];
        if tree.read_at(4, at, &mut got) != n || got.as_slice() != want {
            return false;
        }
    }
    true
}

/// A file is emptied, and a folder stays.
fn is_emptied(tree: &mut Tree) -> bool {
    tree.truncate(4);
    tree.truncate(2);
    tree.size(4) == 0 && tree.change(4) == 3 && tree.size(2) == 1
}

#[test]
fn writes_and_reads_of_a_file(rt: HostRuntime) -> Result<(), Fail> {
    let mut tree = a_tree(rt.alloc())?;
    assert!(rt; is_written(&mut tree) && is_read(&tree) && is_emptied(&mut tree));
    Ok(())
}

/// Writes to a node at a position, and what each gives, where all files have three bytes less than they may.
static LAST_WRITES: [(u32, u64, &[u8], Result<(), FileFault>); 2] = [
    (3, 0, b"345", Ok(())),
    (3, 3, b"6", Err(FileFault::Errno(Errno::Enospc))),
];

/// Writes to the end of the file `/f`, and past it.
static LONG_WRITES: [(u32, u64, &[u8], Result<(), FileFault>); 3] = [
    (4, 16_777_215, b"a", Ok(())),
    (4, 16_777_216, b"a", Err(FileFault::Errno(Errno::Efbig))),
    (4, u64::MAX, b"a", Err(FileFault::Errno(Errno::Efbig))),
];

fn writes(tree: &mut Tree, rows: &[(u32, u64, &[u8], Result<(), FileFault>)]) -> bool {
    for (id, at, bytes, want) in rows {
        if tree.write_at(*id, *at, *bytes) != *want {
            return false;
        }
    }
    true
}

static LONG_FILES: [&[u8]; 3] = [b"a", b"b", b"c"];

/// Files of 16,777,215 bytes.
fn add_long_files(alloc: Global, tree: &mut Tree) -> Result<(), Fail> {
    for &name in &LONG_FILES {
        let bytes = vec![in alloc; 0u8; 16_777_215]?;
        tree.create(name, bytes, None)?;
    }
    Ok(())
}

#[test]
fn files_are_bounded(rt: HostRuntime) -> Result<(), Fail> {
    let mut tree = a_tree(rt.alloc())?;
    let bounds_each = writes(&mut tree, &LONG_WRITES);
    add_long_files(rt.alloc(), &mut tree)?;
    assert!(rt; bounds_each && writes(&mut tree, &LAST_WRITES));
    Ok(())
}

/// As many nodes as there can be.
fn many_nodes(alloc: Global) -> Result<Tree, Fail> {
    let mut tree = Tree::new(alloc)?;
    for i in 1u32..65_536 {
        let name = format!(in alloc; "{i}")?;
        tree.create(name.as_bytes(), Vec::new(alloc), None)?;
    }
    Ok(tree)
}

#[test]
fn nodes_are_bounded(rt: HostRuntime) -> Result<(), Fail> {
    let mut tree = many_nodes(rt.alloc())?;
    let refused = tree.mkdir(b"d");
    let gone = tree.unlink(b"7", false);
    let made = tree.mkdir(b"d");
    assert!(rt;
        refused == Err(FileFault::Errno(Errno::Enospc)) && gone == Ok(()) && made == Ok(65_537)
    );
    Ok(())
}
