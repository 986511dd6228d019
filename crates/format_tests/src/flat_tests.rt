//! Tests of `bflt_format`.

use crate::sample::ONE_WORD_FLAT;
use bflt_format::*;
use std::alloc::{AllocError, Global};
use std::test::*;

/// The file of one word with some of its words changed, and with more bytes behind it.
fn changed(alloc: Global, words: &[(u8, u32)], more: &[u8]) -> Result<Vec<u8>, AllocError> {
    let mut file = Vec::from_slice(alloc, &ONE_WORD_FLAT)?;
    for (at, word) in words {
        let at = usize::from(*at);
        if at + 4 <= file.len() {
            file[at..at + 4].copy_from_slice(&word.to_be_bytes());
        }
    }
    file.extend_from_slice(more)?;
    Ok(file)
}

/// The same flat file, made of its values.
fn made_anew(alloc: Global, flat: &Flat) -> Result<Option<Flat>, AllocError> {
    if flat.flags() != 1 {
        return Ok(None);
    }
    let mut file = vec![in alloc; 0; 64]?;
    file.extend_from_slice(flat.body())?;
    let records = Vec::from_slice(alloc, flat.records())?;
    Ok(Some(Flat::of(
        flat.entry(),
        flat.text(),
        flat.data_len(),
        flat.bss(),
        flat.stack(),
        file,
        records,
    )))
}

/// The bytes that the values of a file give, which are read and made anew.
fn written_anew(alloc: Global, file: &[u8]) -> Result<Vec<u8>, Fail> {
    let flat = Flat::read(alloc, file)?;
    let made = made_anew(alloc, &flat)?.ok_or("flags 1")?;
    Ok(made.into_bytes()?)
}

#[test]
fn example_is_written(rt: HostRuntime) -> Result<(), Fail> {
    let written = written_anew(rt.alloc(), &ONE_WORD_FLAT)?;
    assert!(rt; written.as_slice() == ONE_WORD_FLAT.as_slice());
    Ok(())
}

/// Records behind a gap and out of order, KTRACE, a build date, fillers and bytes at the end.
static LOOSE: [(u8, u32); 7] = [
    (28, 0x90),
    (32, 2),
    (36, 17),
    (40, 0x6543_2101),
    (44, 1),
    (60, 2),
    (140, 0xffff_ffff),
];

/// What is written of it has its flags and its records, one behind the other.
fn drops_what_is_not_looked_at(alloc: Global) -> Result<bool, Fail> {
    let file = changed(alloc, &LOOSE, &[0, 0, 0, 0x48, 0, 0, 0, 4, 9, 9, 9])?;
    let flat = Flat::read(alloc, &file)?;
    let written = flat.write()?;
    let want = changed(alloc, &[(32, 2), (36, 17)], &[0, 0, 0, 4])?;
    Ok(written.as_slice() == want.as_slice())
}

#[test]
fn what_is_not_looked_at(rt: HostRuntime) -> Result<(), Fail> {
    assert!(rt; drops_what_is_not_looked_at(rt.alloc())?);
    Ok(())
}
