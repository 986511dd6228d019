//! Tests of `elf2flt_tool` that need no ELF file.

use elf2flt_tool::*;
use elf32_reader::ElfFault;
use std::test::*;

#[test]
fn no_bytes(rt: HostRuntime) {
    let found = match convert(rt.alloc(), &[], 4096) {
        Err(Refusal::Elf(fault)) => Some(fault),
        _ => None,
    };
    assert!(rt; found == Some(ElfFault::Short));
}

static TEXTS: [(Refusal, &str); 4] = [
    (
        Refusal::Elf(ElfFault::Short),
        "the ELF file is refused: Short",
    ),
    (
        Refusal::TargetOutside { place: 0x10008 },
        "the word at 0x00010008 points outside the image",
    ),
    (
        Refusal::WordOverlap { place: 0x10008 },
        "the word at 0x00010008 meets another relocation",
    ),
    (Refusal::Memory, "out of memory"),
];

#[test]
fn refusals_as_text(rt: HostRuntime) -> Result<(), Fail> {
    for (refusal, want) in &TEXTS {
        let found = format!(in rt.alloc(); "{refusal}")?;
        assert!(rt; found.as_str() == *want);
    }
    Ok(())
}
