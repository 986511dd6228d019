//! The bytes of memory, its ends, and the instructions in it.

use phys_mem::{BASE, PhysMem};
use rv32im_table::Instr;
use std::alloc::{AllocError, Global};
use std::test::*;

/// A change of memory.
#[derive(Clone, Copy)]
enum Step {
    Nothing,
    Set8(u32, u8),
    Set32(u32, u32),
    CopyIn(u32, &'static [u8]),
    Clear(u32, u32),
}

fn change(memory: &mut PhysMem, step: Step) {
    match step {
        Step::Nothing => {}
        Step::Set8(at, value) => {
            if memory.holds(at, 1) {
                memory.set8(at, value);
            }
        }
        Step::Set32(at, value) => {
            if memory.holds(at, 4) {
                memory.set32(at, value);
            }
        }
        Step::CopyIn(at, bytes) => {
            if bytes.len() <= 8 && memory.holds(at, bytes.len() as u32) {
                memory.copy_in(at, bytes);
            }
        }
        Step::Clear(at, len) => {
            if memory.holds(at, len) {
                memory.clear(at, len);
            }
        }
    }
}

/// Bytes are copied over the end of a page, a word is written over some of them, and a byte is written and one cleared.
static OVER: [Step; 4] = [
    Step::CopyIn(0x8000_0ffd, &[1, 2, 3, 4, 5, 6, 7, 8]),
    Step::Set32(0x8000_0ffe, 0x0d0c_0b0a),
    Step::Set8(0x8000_1004, 0xff),
    Step::Clear(0x8000_1001, 1),
];

fn has_bytes(memory: &PhysMem) -> bool {
    if !memory.holds(0x8000_0ffd, 8) {
        return false;
    }
    let mut bytes = [0; 8];
    memory.copy_out(0x8000_0ffd, &mut bytes);
    bytes == [1, 10, 11, 12, 0, 6, 7, 0xff]
        && memory.get32(0x8000_0ffe) == 0x000c_0b0a
        && memory.get(0x8000_1003, 2) == 0xff07
}

/// Whether two pages are as large as that, and have these bytes behind the changes.
fn changes_bytes(alloc: Global) -> Result<bool, AllocError> {
    let mut memory = PhysMem::new(alloc, 2)?;
    let is_whole = memory.pages() == 2 && memory.as_slice().len() == 8192;
    for &step in &OVER {
        change(&mut memory, step);
    }
    Ok(is_whole && has_bytes(&memory))
}

#[test]
fn bytes_over_a_page(rt: HostRuntime) -> Result<(), Fail> {
    assert!(rt; changes_bytes(rt.alloc())?);
    Ok(())
}

/// Ranges at the ends of memory of one page, and of the address space: whether it holds them.
static RANGES: [(u32, u32, bool); 7] = [
    (0x7fff_ffff, 1, false),
    (0x8000_0000, 4096, true),
    (0x8000_0000, 4097, false),
    (0x8000_1000, 0, true),
    (0x8000_1001, 0, false),
    (0xffff_ffff, 1, false),
    (0x8000_0001, 0xffff_ffff, false),
];

/// The first of them that is answered otherwise.
fn other_range(memory: &PhysMem) -> Option<(u32, u32)> {
    for &(at, len, want) in &RANGES {
        if memory.holds(at, len) != want {
            return Some((at, len));
        }
    }
    None
}

/// The same of a memory of one page.
fn other_range_in(alloc: Global) -> Result<Option<(u32, u32)>, AllocError> {
    let memory = PhysMem::new(alloc, 1)?;
    Ok(other_range(&memory))
}

#[test]
fn ranges(rt: HostRuntime) -> Result<(), Fail> {
    let other = other_range_in(rt.alloc())?;
    assert!(rt; other.is_none(), "{other:?}");
    Ok(())
}

/// An instruction, as far as it is asked here.
fn word_of(instr: Option<Instr>) -> &'static str {
    match instr {
        None => "none",
        Some(
            Instr::Addi {
                rd: 0,
                rs1: 0,
                imm: 0,
            },
        ) => "nop",
        Some(Instr::Ecall) => "ecall",
        Some(_) => "another",
    }
}

/// A place behind all that is written.
const BEHIND: u32 = BASE + 2000;

/// Changes, and the instruction at an address then: behind a write over its word or the end of it, a copy and a clear, and at no
/// multiple of 4.
static CHANGES: [(Step, u32, &'static str); 15] = [
    (Step::Nothing, BASE, "none"),
    (Step::Set32(BASE, 0x0000_0013), BEHIND, "none"),
    (Step::Set32(BASE + 4, 0x0000_0073), BASE, "nop"),
    (Step::Nothing, BASE + 4, "ecall"),
    (Step::Set32(BASE + 2, 0x0073_0000), BASE, "nop"),
    (Step::Nothing, BASE + 4, "ecall"),
    (Step::Set32(BASE + 2, 0x0013_0000), BASE + 4, "nop"),
    (Step::Set8(BASE + 4, 0x73), BASE + 4, "ecall"),
    (Step::CopyIn(BASE + 3, &[0, 0x13]), BASE + 4, "nop"),
    (Step::Nothing, BASE + 1, "none"),
    (Step::Set32(BASE + 1, 0x0000_0073), BASE + 1, "ecall"),
    (Step::Set8(BASE + 4, 0x13), BEHIND, "none"),
    (Step::Clear(BASE + 7, 4089), BASE + 4, "nop"),
    (Step::Clear(BASE, 4096), BASE + 4, "none"),
    (Step::Nothing, BASE, "none"),
];

fn has_instructions(memory: &mut PhysMem) -> bool {
    for &(step, at, want) in &CHANGES {
        change(memory, step);
        if !memory.holds(at, 4) || word_of(memory.instr(at)) != want {
            return false;
        }
    }
    true
}

/// The same of a memory of one page.
fn page_has_instructions(alloc: Global) -> Result<bool, AllocError> {
    let mut memory = PhysMem::new(alloc, 1)?;
    Ok(has_instructions(&mut memory))
}

#[test]
fn instructions(rt: HostRuntime) -> Result<(), Fail> {
    assert!(rt; page_has_instructions(rt.alloc())?);
    Ok(())
}
