//! The worked manifests, and a manifest for each row of the table of faults.

use manifest_text::{Dump, Item, ItemKind, Manifest, ManifestFault, ManifestRefusal, Start, read};
use quantum_sched::Quantum;
use std::alloc::{AllocError, Global};
use std::test::*;

/// Whether a text is read, or refused at this line for this fault.
fn has_fault(alloc: Global, text: &[u8], want: Option<(u32, ManifestFault)>) -> bool {
    match read(alloc, text) {
        Ok(_) => want.is_none(),
        Err(ManifestRefusal::At { line, fault }) => want == Some((line, fault)),
        Err(ManifestRefusal::Memory) => false,
    }
}

/// So many times the same part, between two others.
fn many(
    alloc: Global,
    front: &str,
    count: u32,
    part: &str,
    back: &str,
) -> Result<String, AllocError> {
    let mut text = String::new(alloc);
    text.push_str(front)?;
    for _ in 0..count {
        text.push_str(part)?;
    }
    text.push_str(back)?;
    Ok(text)
}

static EXAMPLE: &str =
    "# hi\n\nmemory 4\nelf /hi hi.elf\n  flat  /x x.flt\ndir /d\nfile /d/f f.txt\nstdin in.txt\nstart /hi a 7\nquanta 0:100 4294967295:1\nquanta 1:5\nrepeat 3\ndump 2 0x80002040 1\nroot r.img";

/// Its lines that bring something in: number, kind, path, name, and stack.
static ITEMS: [(u32, ItemKind, &[u8], &[u8], u32); 6] = [
    (4, ItemKind::Elf, b"/hi", b"hi.elf", 4096),
    (5, ItemKind::Flat, b"/x", b"x.flt", 0),
    (6, ItemKind::Dir, b"/d", b"", 0),
    (7, ItemKind::File, b"/d/f", b"f.txt", 0),
    (8, ItemKind::Stdin, b"", b"in.txt", 0),
    (14, ItemKind::Root, b"", b"r.img", 0),
];

static QUANTA: [Quantum; 3] = [
    Quantum {
        pick: 0,
        count: 100,
    },
    Quantum {
        pick: u32::MAX,
        count: 1,
    },
    Quantum { pick: 1, count: 5 },
];

static DUMPS: [Dump; 1] = [Dump {
    pid: 2,
    addr: 0x8000_2040,
    len: 1,
}];

fn brings_in(items: &[Item]) -> bool {
    for (item, (line, kind, path, name, stack)) in items.iter().zip(&ITEMS) {
        let is_so = item.line == *line
            && item.kind == *kind
            && item.path.as_slice() == *path
            && item.name.as_slice() == *name
            && item.stack == *stack;
        if !is_so {
            return false;
        }
    }
    items.len() == ITEMS.len()
}

fn starts(starts: &[Start]) -> bool {
    match starts {
        [start] => start.line == 9 && start.args.len() == 3,
        _ => false,
    }
}

fn runs(manifest: &Manifest) -> bool {
    manifest.pages == 4
        && manifest.repeat == 3
        && manifest.quanta.as_slice() == QUANTA.as_slice()
        && manifest.dumps.as_slice() == DUMPS.as_slice()
}

#[test]
fn example_is_read(rt: HostRuntime) -> Result<(), Fail> {
    let manifest = read(rt.alloc(), EXAMPLE.as_bytes())?;
    assert!(rt; runs(&manifest) && brings_in(&manifest.items) && starts(&manifest.starts));
    Ok(())
}

#[test]
fn defaults_are_taken(rt: HostRuntime) -> Result<(), Fail> {
    let manifest = read(rt.alloc(), b"start /hi\nquanta 0:1\n")?;
    assert!(rt; manifest.pages == 256 && manifest.repeat == 1);
    Ok(())
}

/// Manifests, the line of the fault, and the fault.
static FAULTS: [(&str, u32, ManifestFault); 40] = [
    ("quanta 0:1\n\tx", 2, ManifestFault::BadByte),
    ("files\u{7f}", 1, ManifestFault::BadByte),
    ("files", 1, ManifestFault::UnknownWord),
    ("memory", 1, ManifestFault::WordCount),
    ("elf /a", 1, ManifestFault::WordCount),
    ("flat /a b 16", 1, ManifestFault::WordCount),
    ("file a", 1, ManifestFault::WordCount),
    ("file a b 16", 1, ManifestFault::WordCount),
    ("dir", 1, ManifestFault::WordCount),
    ("dir a b", 1, ManifestFault::WordCount),
    ("stdin", 1, ManifestFault::WordCount),
    ("stdin a\nstdin /b b", 2, ManifestFault::WordCount),
    ("start", 1, ManifestFault::WordCount),
    ("quanta ", 1, ManifestFault::WordCount),
    ("dump 1 0x0", 1, ManifestFault::WordCount),
    ("memory 0", 1, ManifestFault::BadNumber),
    ("memory 16385", 1, ManifestFault::BadNumber),
    ("memory 04", 1, ManifestFault::BadNumber),
    ("elf /a b 15", 1, ManifestFault::BadNumber),
    ("elf a b 1048577", 1, ManifestFault::BadNumber),
    ("quanta 0:1 1:0", 1, ManifestFault::BadNumber),
    ("quanta 4294967296:1", 1, ManifestFault::BadNumber),
    ("quanta 0:1:1", 1, ManifestFault::BadNumber),
    ("repeat 1000001", 1, ManifestFault::BadNumber),
    ("dump 1 0xABC 1", 1, ManifestFault::BadNumber),
    ("dump 1 0x123456789 1", 1, ManifestFault::BadNumber),
    ("dump 1 0x0 4097", 1, ManifestFault::BadNumber),
    ("elf a b", 1, ManifestFault::BadPath),
    ("flat / b", 1, ManifestFault::BadPath),
    ("flat //a b", 1, ManifestFault::BadPath),
    ("file /a/.. b", 1, ManifestFault::BadPath),
    ("dir /a/", 1, ManifestFault::BadPath),
    ("start /a/./b", 1, ManifestFault::BadPath),
    ("start /..", 1, ManifestFault::BadPath),
    ("memory 1\n#memory 2\nmemory 3", 3, ManifestFault::Repeated),
    ("stdin a\ndir /a\nstdin a", 3, ManifestFault::Repeated),
    ("repeat 1\nrepeat 1", 2, ManifestFault::Repeated),
    ("start /a", 0, ManifestFault::NoQuanta),
    ("quanta 0:1", 0, ManifestFault::NoStart),
    ("", 0, ManifestFault::NoStart),
];

/// The first text that has another fault.
fn other_fault(alloc: Global) -> Option<&'static str> {
    for &(text, line, fault) in &FAULTS {
        if !has_fault(alloc, text.as_bytes(), Some((line, fault))) {
            return Some(text);
        }
    }
    None
}

#[test]
fn each_fault_has_its_line(rt: HostRuntime) {
    assert!(rt; other_fault(rt.alloc()).is_none());
}

/// A front, how often a part stands behind it, and a back; the line of the fault and the fault, if there is one.
static LIMITS: [(&str, u32, &str, &str, Option<(u32, ManifestFault)>); 15] = [
    ("start /", 255, "a", "\nquanta 0:1", None),
    ("start /", 256, "a", "", Some((1, ManifestFault::BadPath))),
    ("start ", 2047, "/a", "b\nquanta 0:1", None),
    ("start ", 2048, "/a", "", Some((1, ManifestFault::BadPath))),
    ("", 64, "start /a\n", "quanta 0:1", None),
    ("", 65, "start /a\n", "", Some((65, ManifestFault::TooMany))),
    ("", 64, "dump 1 0x0 1\n", "start /a\nquanta 0:1", None),
    (
        "",
        65,
        "dump 1 0x0 1\n",
        "",
        Some((65, ManifestFault::TooMany)),
    ),
    (
        "stdin a\n",
        4095,
        "flat /a b\n",
        "start /a\nquanta 0:1",
        None,
    ),
    (
        "stdin a\n",
        4095,
        "file /a b\n",
        "stdin a",
        Some((4097, ManifestFault::Repeated)),
    ),
    (
        "stdin a\n",
        4096,
        "file /a b\n",
        "",
        Some((4097, ManifestFault::TooMany)),
    ),
    (
        "elf /a b\n",
        4096,
        "dir /a\n",
        "",
        Some((4097, ManifestFault::TooMany)),
    ),
    (
        "",
        4096,
        "dir /a\n",
        "stdin a",
        Some((4097, ManifestFault::TooMany)),
    ),
    ("", 65_536, "quanta 0:1\n", "start /a", None),
    (
        "start /a\n",
        65_536,
        "quanta 0:1\n",
        "quanta 0:1",
        Some((65_538, ManifestFault::TooMany)),
    ),
];

/// The first row of which that isn't so.
fn other_limit(alloc: Global) -> Result<Option<u32>, AllocError> {
    for &(front, count, part, back, want) in &LIMITS {
        let text = many(alloc, front, count, part, back)?;
        if !has_fault(alloc, text.as_bytes(), want) {
            return Ok(Some(count));
        }
    }
    Ok(None)
}

#[test]
fn limits_are_exact(rt: HostRuntime) -> Result<(), Fail> {
    assert!(rt; other_limit(rt.alloc())?.is_none());
    Ok(())
}
