//! Programs in their blocks: the worked examples, and what is refused.

use bflt_format::Flat;
use flat_loader::{LoadRefusal, Loaded, block_len, frame_fits, load, load_at};
use nommu_regions::Regions;
use page_runs::{Chooser, Kind, Run, first_fit};
use phys_mem::PhysMem;
use rv32im_step::Regs;
use std::alloc::{AllocError, Global};
use std::test::*;

/// The program `hi` as a flat file: nine words of code, a text of three bytes, and a pointer to it.
static HI: [u8; 176] = [
    0x62, 0x46, 0x4c, 0x54, 0x00, 0x00, 0x00, 0x04, 0x00, 0x00, 0x00, 0x80, 0x00, 0x00, 0x00, 0xa0,
    0x00, 0x00, 0x00, 0xac, 0x00, 0x00, 0x00, 0xac, 0x00, 0x00, 0x10, 0x00, 0x00, 0x00, 0x00, 0xac,
    0x00, 0x00, 0x00, 0x01, 0x00, 0x00, 0x00, 0x01, 0x00, 0x00, 0x00, 0x00, 0x00, 0x00, 0x00, 0x00,
    0x00, 0x00, 0x00, 0x00, 0x00, 0x00, 0x00, 0x00, 0x00, 0x00, 0x00, 0x00, 0x00, 0x00, 0x00, 0x00,
    0x00, 0x00, 0x00, 0x00, 0x00, 0x00, 0x00, 0x00, 0x00, 0x00, 0x00, 0x00, 0x00, 0x00, 0x00, 0x00,
    0x00, 0x00, 0x00, 0x00, 0x00, 0x00, 0x00, 0x00, 0x00, 0x00, 0x00, 0x00, 0x00, 0x00, 0x00, 0x00,
    0x00, 0x00, 0x00, 0x00, 0x00, 0x00, 0x00, 0x00, 0x00, 0x00, 0x00, 0x00, 0x00, 0x00, 0x00, 0x00,
    0x00, 0x00, 0x00, 0x00, 0x00, 0x00, 0x00, 0x00, 0x00, 0x00, 0x00, 0x00, 0x00, 0x00, 0x00, 0x00,
    0x97, 0x05, 0x00, 0x00, 0x83, 0xa5, 0x85, 0x02, 0x13, 0x05, 0x10, 0x00, 0x13, 0x06, 0x30, 0x00,
    0x93, 0x08, 0x00, 0x04, 0x73, 0x00, 0x00, 0x00, 0x13, 0x05, 0x70, 0x00, 0x93, 0x08, 0xd0, 0x05,
    0x73, 0x00, 0x00, 0x00, 0x68, 0x69, 0x0a, 0x00, 0x00, 0x00, 0x00, 0x64, 0x00, 0x00, 0x00, 0x68,
];

/// Changes some big-endian words of a file.
fn change(file: &mut [u8], words: &[(u8, u32)]) {
    for (at, word) in words {
        let at = usize::from(*at);
        if at + 4 <= file.len() {
            file[at..at + 4].copy_from_slice(&word.to_be_bytes());
        }
    }
}

/// The file with some of its words changed.
fn changed(alloc: Global, words: &[(u8, u32)]) -> Result<Vec<u8>, AllocError> {
    let mut file = Vec::from_slice(alloc, &HI)?;
    change(&mut file, words);
    Ok(file)
}

/// The program of the file with such changes.
fn program(alloc: Global, words: &[(u8, u32)]) -> Result<Flat, Fail> {
    let file = changed(alloc, words)?;
    Ok(Flat::read(alloc, &file)?)
}

/// The argument `/hi`.
fn arguments(alloc: Global) -> Result<Vec<Vec<u8>>, AllocError> {
    let mut arguments = Vec::new(alloc);
    arguments.push(Vec::from_slice(alloc, b"/hi")?)?;
    Ok(arguments)
}

/// Loads at the start of memory, where the frame fits and the block lies there.
fn loaded(mem: &mut PhysMem, flat: &Flat, args: &[Vec<u8>]) -> Option<Regs> {
    if mem.holds(0x8000_0000, block_len(flat)) && frame_fits(flat, args, &[]) {
        Some(load_at(mem, 0x8000_0000, flat, args, &[]))
    } else {
        None
    }
}

/// The same of the file with such changes.
fn load_changed(
    alloc: Global,
    mem: &mut PhysMem,
    words: &[(u8, u32)],
) -> Result<Option<Regs>, Fail> {
    let flat = program(alloc, words)?;
    let args = arguments(alloc)?;
    Ok(loaded(mem, &flat, &args))
}

/// The registers of a program that begins: pc and sp, and zeros.
fn begun(pc: u32, sp: u32) -> Option<Regs> {
    let mut x = [0; 32];
    x[2] = sp;
    Some(Regs { pc, x })
}

fn word(mem: &PhysMem, at: u32) -> Option<u32> {
    if mem.holds(at, 4) {
        Some(mem.get32(at))
    } else {
        None
    }
}

/// The first address at which another word is.
fn other_word(mem: &PhysMem, words: &[(u32, u32)]) -> Option<u32> {
    for (at, want) in words {
        if word(mem, *at) != Some(*want) {
            return Some(*at);
        }
    }
    None
}

/// Three pages of four that were used before.
fn used_memory(alloc: Global) -> Result<PhysMem, Fail> {
    let mut mem = PhysMem::new(alloc, 4)?;
    if mem.holds(0x8000_0000, 0x2010) {
        mem.copy_in(0x8000_0000, &[0xff; 0x2010]);
    }
    Ok(mem)
}

/// Behind a load at the start of memory: the bytes that were there go, and those of the next page stay.
static AT_START: [(u32, u32); 10] = [
    (0x8000_00a8, 0x8000_00a4),
    (0x8000_00ac, 0),
    (0x8000_1fdc, 0),
    (0x8000_1fe0, 1),
    (0x8000_1fe4, 0x8000_1ff0),
    (0x8000_1fe8, 0),
    (0x8000_1fec, 0),
    (0x8000_1ff0, 0x0069_682f),
    (0x8000_1ffc, 0),
    (0x8000_2000, 0xffff_ffff),
];

/// A load at the start of memory: whether the program begins there, and the first address at which another word is.
fn loads_at_start(alloc: Global, mem: &mut PhysMem) -> Result<(bool, Option<u32>), Fail> {
    let regs = load_changed(alloc, mem, &[])?;
    let is_begun = regs == begun(0x8000_0080, 0x8000_1fe0);
    let is_there = mem.as_slice().starts_with(&HI[..168]);
    Ok((is_begun && is_there, other_word(mem, &AT_START)))
}

/// The same of a memory that was used before.
fn loads_into_used(alloc: Global) -> Result<(bool, Option<u32>), Fail> {
    let mut mem = used_memory(alloc)?;
    loads_at_start(alloc, &mut mem)
}

#[test]
fn program_at_the_start_of_memory(rt: HostRuntime) -> Result<(), Fail> {
    let (is_there, other) = loads_into_used(rt.alloc())?;
    assert!(rt; is_there && other.is_none(), "{other:?}");
    Ok(())
}

/// Words of the file: the bytes of its stack, its flags and its build date, and the word that its record names.
static HEADER: [(u8, u32); 4] = [(24, 4095), (36, 17), (40, 7), (168, 0)];

/// What is at their places behind a load.
static LOADED: [(u8, u32); 3] = [(24, 4095), (36, 17), (168, 0)];

/// Whether a load of the one leaves the other.
fn loads_header(alloc: Global) -> Result<bool, Fail> {
    let mut mem = PhysMem::new(alloc, 2)?;
    let regs = load_changed(alloc, &mut mem, &HEADER)?;
    let want = changed(alloc, &LOADED)?;
    Ok(regs.is_some() && mem.as_slice().get(..172) == want.get(..172))
}

/// The header has what the file says, and the fixed words for all else. A word 0 is not linked.
#[test]
fn header_and_a_word_0(rt: HostRuntime) -> Result<(), Fail> {
    assert!(rt; loads_header(rt.alloc())?);
    Ok(())
}

/// Loads with the argument /hi into the lowest run that fits.
fn load_first(
    alloc: Global,
    regions: &mut Regions,
    mem: &mut PhysMem,
    words: &[(u8, u32)],
) -> Result<Result<Loaded, LoadRefusal>, Fail> {
    let flat = program(alloc, words)?;
    let args = arguments(alloc)?;
    let chooser = Chooser::new(Kind::First, |runs: &[Run], need: u32| {
        first_fit(runs, need)
    });
    if mem.pages() != regions.pages() {
        return Err(Fail::from("another number of pages"));
    }
    Ok(load(alloc, regions, mem, &flat, &args, &[], &chooser))
}

/// A block of two pages at the start of memory.
fn is_first(loaded: &mut Loaded) -> bool {
    let space = &mut loaded.space;
    loaded.base == 0x8000_0000
        && loaded.pages == 2
        && Some(loaded.regs) == begun(0x8000_0080, 0x8000_1fe0)
        && space.brk(0) == 0x8000_00ac
        && space.brk(0x8000_1000) == 0x8000_1000
        && space.brk(0x8000_1001) == 0x8000_1000
        && space.own(0x8000_0040, 0x1fc0, true)
        && !space.own(0x8000_003f, 1, false)
}

/// A load into an empty memory.
fn loads_first(alloc: Global, regions: &mut Regions, mem: &mut PhysMem) -> Result<bool, Fail> {
    match load_first(alloc, regions, mem, &[])? {
        Ok(mut first) => Ok(is_first(&mut first) && word(mem, 0x8000_00a8) == Some(0x8000_00a4)),
        Err(_) => Ok(false),
    }
}

/// In 4 pages: a block of 2 behind the first one, and no room for a third.
fn loads_second(alloc: Global, regions: &mut Regions, mem: &mut PhysMem) -> Result<bool, Fail> {
    let is_second = match load_first(alloc, regions, mem, &[])? {
        Ok(second) => second.base == 0x8000_2000 && regions.free().len() == 0,
        Err(_) => false,
    };
    let third = load_first(alloc, regions, mem, &[])?.err();
    Ok(is_second && third == Some(LoadRefusal::NoRun))
}

fn loads_both(alloc: Global, regions: &mut Regions, mem: &mut PhysMem) -> Result<bool, Fail> {
    let first = loads_first(alloc, regions, mem)?;
    let second = loads_second(alloc, regions, mem)?;
    Ok(first && second)
}

/// The same in a memory of four pages.
fn loads_into_four(alloc: Global) -> Result<bool, Fail> {
    let mut mem = PhysMem::new(alloc, 4)?;
    let mut regions = Regions::new(alloc, 4)?;
    loads_both(alloc, &mut regions, &mut mem)
}

#[test]
fn programs_in_the_lowest_run(rt: HostRuntime) -> Result<(), Fail> {
    assert!(rt; loads_into_four(rt.alloc())?);
    Ok(())
}

/// A stack of 16 bytes is too small for a frame of 20, and then nothing is taken.
static REFUSED: [(u32, LoadRefusal); 2] = [(4096, LoadRefusal::NoRun), (16, LoadRefusal::E2big)];

/// How a load of a program with a stack of so many bytes is refused, if it is.
fn refusal_of(
    alloc: Global,
    regions: &mut Regions,
    mem: &mut PhysMem,
    stack: u32,
) -> Result<Option<LoadRefusal>, Fail> {
    Ok(load_first(alloc, regions, mem, &[(24, stack)])?.err())
}

fn refuses(alloc: Global, regions: &mut Regions, mem: &mut PhysMem) -> Result<bool, Fail> {
    for &(stack, refusal) in &REFUSED {
        let given = refusal_of(alloc, regions, mem, stack)?;
        let free = regions.free().first().copied();
        if given != Some(refusal) || free != Some(Run { first: 0, count: 1 }) {
            return Ok(false);
        }
    }
    Ok(true)
}

/// The same in a memory of one page.
fn one_page_refuses(alloc: Global) -> Result<bool, Fail> {
    let mut mem = PhysMem::new(alloc, 1)?;
    let mut regions = Regions::new(alloc, 1)?;
    refuses(alloc, &mut regions, &mut mem)
}

#[test]
fn refusals(rt: HostRuntime) -> Result<(), Fail> {
    assert!(rt; one_page_refuses(rt.alloc())?);
    Ok(())
}
