//! The programs of the demo.

ghost use Rattle.std.specs.Prelude.{◌≡◌, ◌+◌, ◌-◌, ◌*◌, ◌%◌, ◌^◌, ◌≤◌, length, IfOk};
ghost use Rattle.elf_maker.specs.Given.{IsPart, HasPlainName};
ghost use Rattle.elf_maker.specs.Spelling.{words_text};
ghost use Rattle.elf_maker.specs.Values.{part_value, symbol_value, Says};
ghost use Rattle.elf_maker.specs.Demo.{text_start, demo_code, demo_letter, demo_data, text_part, data_part, demo_parts, letter_symbol, pair_symbol, loop_symbol, demo_symbols, demo_relas, demo_file};

use crate::given::{MakeRela, MakeSymbol, Part};
use crate::making::make;
use crate::numbers::push_words;
use std::alloc::{AllocError, Global};

/// The linked address of .text, where a program starts.
const TEXT: u32 = 0x10000;
/// The linked address of .data, where the letter stands.
const DATA: u32 = 0x10040;
/// The linked address of the pointer to the letter.
const POINTER: u32 = 0x10044;
/// The linked address of the instruction whose pair loads the pointer.
const PAIR: u32 = 0x10004;
/// The linked address of the loop's first instruction, and of its branch.
const LOOP: u32 = 0x1000c;

const BRANCH: u32 = 0x10020;
/// The times that a program writes, for each unit of its number.
const TIMES: u32 = 30;
/// What an immediate of type I is multiplied by in its word.
const IMMEDIATE: u32 = 0x10_0000;

const SHT_PROGBITS: u32 = 1;
/// SHF_ALLOC and SHF_EXECINSTR.
const CODE_FLAGS: u32 = 6;
/// SHF_ALLOC and SHF_WRITE.
const DATA_FLAGS: u32 = 3;
/// STB_GLOBAL and STT_NOTYPE.
const GLOBAL: u8 = 16;

const R_RISCV_32: u8 = 1;

const R_RISCV_BRANCH: u8 = 16;

const R_RISCV_PCREL_HI20: u8 = 23;

const R_RISCV_PCREL_LO12_I: u8 = 24;

/// Writes program i of the demo: a linked executable with two sections, `.text` and `.data`, and the
/// relocations that a linker keeps. It writes its letter and a newline 30 * i times, and exits with the code i.
pub fn demo(alloc: Global, i: u32) -> Result<Vec<u8>, AllocError>
    requires some { 1 ≤ i }
    requires few { i ≤ 64 }
    ensures says { IfOk result (λ file. Says (demo_parts i) demo_symbols demo_relas text_start file.items) }
    ensures bytes { IfOk result (λ file. file.items ≡ demo_file i) }
{
    let text = text(alloc, i)?;
    let data = data(alloc, i)?;
    let letter = symbol(alloc, b"letter", DATA, 2)?;
    let pair = symbol(alloc, b"pair", PAIR, 1)?;
    let begin = symbol(alloc, b"loop", LOOP, 1)?;
    let relas = [
        rela(0, PAIR, 1, R_RISCV_PCREL_HI20, 4),
        rela(0, PAIR + 4, 2, R_RISCV_PCREL_LO12_I, 0),
        rela(0, BRANCH, 3, R_RISCV_BRANCH, 0),
        rela(1, POINTER, 1, R_RISCV_32, 0),
    ];
    make(alloc, &[text, data], &[letter, pair, begin], &relas, TEXT)
}

/// The section with the code.
fn text(alloc: Global, i: u32) -> Result<Part, AllocError>
    requires { i ≤ 64 }
    ensures value { IfOk result (λ p. part_value p ≡ text_part i) }
{
    let bytes = code(alloc, i)?;
    Ok(Part {
        kind: SHT_PROGBITS,
        flags: CODE_FLAGS,
        addr: TEXT,
        size: 48,
        bytes,
    })
}

/// The instructions, four bytes each.
fn code(alloc: Global, i: u32) -> Result<Vec<u8>, AllocError>
    requires { i ≤ 64 }
    ensures { IfOk result (λ bytes. bytes.items ≡ words_text (demo_code i)) }
{
    let mut bytes = Vec::new(alloc);
    push_words(
        &mut bytes,
        &[
            TIMES * i * IMMEDIATE + 0x413,
            0x597,
            0x0405_a583,
            0x0010_0513,
            0x0020_0613,
            0x0400_0893,
            0x0000_0073,
            0xfff4_0413,
            0xfe04_16e3,
            i * IMMEDIATE + 0x513,
            0x05d0_0893,
            0x0000_0073,
        ],
    )?;
    Ok(bytes)
}

/// The section with the letter and the pointer to it.
fn data(alloc: Global, i: u32) -> Result<Part, AllocError>
    requires some { 1 ≤ i }
    requires few { i ≤ 64 }
    ensures value { IfOk result (λ p. part_value p ≡ data_part i) }
{
    let letter = b'a' + ((i - 1) % 26) as u8;
    let mut bytes = Vec::from_slice(alloc, &[letter, b'\n', 0, 0])?;
    push_words(&mut bytes, &[DATA])?;
    Ok(Part {
        kind: SHT_PROGBITS,
        flags: DATA_FLAGS,
        addr: DATA,
        size: 8,
        bytes,
    })
}

/// A global symbol of a section.
fn symbol(alloc: Global, name: &[u8], value: u32, shndx: u16) -> Result<MakeSymbol, AllocError>
    ensures { IfOk result (λ s. symbol_value s ≡ record { name = name.now; value = value; info = 16; shndx = shndx }) }
{
    Ok(MakeSymbol {
        name: Vec::from_slice(alloc, name)?,
        value,
        info: GLOBAL,
        shndx,
    })
}

fn rela(part: u32, offset: u32, symbol: u32, kind: u8, addend: i32) -> MakeRela
    ensures { result ≡ record { part = part; offset = offset; symbol = symbol; kind = kind; addend = addend } }
{
    MakeRela {
        part,
        offset,
        symbol,
        kind,
        addend,
    }
}
