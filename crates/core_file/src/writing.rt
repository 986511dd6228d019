//! Writing a core file.

ghost use Rattle.std.specs.Prelude.{◌≡◌, ◌+◌, ◌*◌, ◌≤◌, ◌^◌, ◌<◌, ◌++◌, ◌∷◌, [], length, replicate, codes, drop, OnOk, IfOk};
ghost use Rattle.core_file.specs.Text.{words_text, halves_text, header_text, headers_text, load_text, loads_text, status_text, note_text, note_at, note_len, bytes_of, core_text, flags_of};
ghost use Rattle.core_file.specs.Given.{FitsFile};
ghost use Rattle.core_file.specs.Code.{segment_value, segment_values, core_value};

use crate::process::{Core, Segment};
use rv32im_step::Regs;
use std::alloc::{AllocError, Global};

/// ET_CORE, EM_RISCV.
const KIND: u16 = 4;

const MACHINE: u16 = 243;

/// The sizes of the ELF header, of a program header, of the note and of its descriptor.
const HEADER_LEN: u16 = 52;

const PROGRAM_LEN: u16 = 32;

const NOTE_LEN: u32 = 224;

const STATUS_LEN: u32 = 204;

/// PT_LOAD, PT_NOTE, NT_PRSTATUS.
const LOAD: u32 = 1;

const NOTE: u32 = 4;

const STATUS: u32 = 1;

/// Adds numbers of four bytes, the lowest byte first.
fn push_words(out: &mut Vec<u8>, words: &[u32]) -> Result<(), AllocError>
    ensures { OnOk result (out.new.items ≡ out.old.items ++ words_text words.now) }
{
    for word in words {
        out.extend_from_slice(&word.to_le_bytes())?;
    }
    Ok(())
}

/// Adds numbers of two bytes, the lowest byte first.
fn push_halves(out: &mut Vec<u8>, halves: &[u16]) -> Result<(), AllocError>
    ensures { OnOk result (out.new.items ≡ out.old.items ++ halves_text halves.now) }
{
    for half in halves {
        out.extend_from_slice(&half.to_le_bytes())?;
    }
    Ok(())
}

/// Adds the ELF header of a file with so many program headers.
#[tactic(auto, unfolding(crate::specs::Text::header_text))]
fn push_header(out: &mut Vec<u8>, headers: u16) -> Result<(), AllocError>
    ensures { OnOk result (out.new.items ≡ out.old.items ++ header_text headers) }
{
    out.extend_from_slice(b"\x7fELF\x01\x01\x01\0\0\0\0\0\0\0\0\0")?;
    push_halves(out, &[KIND, MACHINE])?;
    push_words(out, &[1, 0, HEADER_LEN as u32, 0, 0])?;
    push_halves(out, &[HEADER_LEN, PROGRAM_LEN, headers, 0, 0, 0])
}

/// Adds the program header of a segment whose bytes stand from `offset` on.
#[tactic(auto, unfolding(crate::specs::Text::load_text))]
fn push_load(out: &mut Vec<u8>, offset: u32, segment: &Segment) -> Result<(), AllocError>
    requires { length segment.now.bytes.items < 2 ^ 32 }
    ensures { OnOk result (out.new.items ≡ out.old.items ++ load_text offset (segment_value segment.now)) }
{
    let len = segment.bytes.len() as u32;
    let flags = if segment.write { 7 } else { 5 };
    push_words(out, &[LOAD, offset, segment.addr, 0, len, len, flags, 1])
}

/// Adds those of segments, whose bytes stand one behind the other from `offset` on.
fn push_loads(out: &mut Vec<u8>, offset: u32, segments: &[Segment]) -> Result<(), AllocError>
    requires { offset + length (bytes_of (segment_values segments.now)) < 2 ^ 32 }
    ensures { OnOk result (out.new.items ≡ out.old.items ++ loads_text offset (segment_values segments.now)) }
{
    let mut at = offset;
    for segment in segments {
        push_load(out, at, segment)?;
        at += segment.bytes.len() as u32;
    }
    Ok(())
}

/// Adds all program headers: the note's, and the segments'.
#[tactic(auto, unfolding(crate::specs::Text::headers_text))]
fn push_headers(out: &mut Vec<u8>, segments: &[Segment]) -> Result<(), AllocError>
    requires few { length segments.now ≤ 16384 }
    requires fit { length (bytes_of (segment_values segments.now)) ≤ 67108864 }
    ensures { OnOk result (out.new.items ≡ out.old.items ++ headers_text (segment_values segments.now)) }
{
    let at = note_at(segments.len());
    push_words(out, &[NOTE, at, 0, 0, NOTE_LEN, 0, 0, 4])?;
    push_loads(out, at + NOTE_LEN, segments)
}

/// Where the note stands behind the program headers of so many segments.
fn note_at(segments: usize) -> u32
    requires { segments ≤ 16384 }
    ensures { result ≡ note_at segments }
{
    84 + 32 * segments as u32
}

/// Adds `struct elf_prstatus`.
#[tactic(auto, unfolding(crate::specs::Text::status_text))]
fn push_status(out: &mut Vec<u8>, core: &Core) -> Result<(), AllocError>
    ensures { OnOk result (out.new.items ≡ out.old.items ++ status_text (core_value core.now)) }
{
    let signal = core.signal;
    push_words(out, &[signal as u32, 0, 0])?;
    push_halves(out, &[signal as u16, 0])?;
    push_words(out, &[0, 0, core.pid, core.parent])?;
    out.extend_from_slice(&[0; 40])?;
    push_registers(out, &core.regs)?;
    out.extend_from_slice(&[0; 4])
}

/// Adds pc and x1 to x31.
fn push_registers(out: &mut Vec<u8>, regs: &Regs) -> Result<(), AllocError>
    ensures { OnOk result (out.new.items ≡ out.old.items ++ words_text (regs.now.pc ∷ drop 1 regs.now.x)) }
{
    push_words(out, &[regs.pc])?;
    push_words(out, regs.x.split_at(1).1)
}

/// Adds the note.
#[tactic(auto, unfolding(crate::specs::Text::note_text))]
fn push_note(out: &mut Vec<u8>, core: &Core) -> Result<(), AllocError>
    ensures { OnOk result (out.new.items ≡ out.old.items ++ note_text (core_value core.now)) }
{
    push_words(out, &[5, STATUS_LEN, STATUS])?;
    out.extend_from_slice(b"CORE\0\0\0\0")?;
    push_status(out, core)
}

/// Adds the bytes of segments.
fn push_bytes(out: &mut Vec<u8>, segments: &[Segment]) -> Result<(), AllocError>
    ensures { OnOk result (out.new.items ≡ out.old.items ++ bytes_of (segment_values segments.now)) }
{
    for segment in segments {
        out.extend_from_slice(&segment.bytes)?;
    }
    Ok(())
}

/// The core file of a process: ELF header, program headers, the note with its registers, and its bytes.
/// It has at most 65 MiB.
#[tactic(auto, unfolding(crate::specs::Text::core_text))]
pub fn core_text(alloc: Global, core: &Core) -> Result<Vec<u8>, AllocError>
    requires { FitsFile (core_value core.now) }
    ensures { IfOk result (λ text. text.items ≡ core_text (core_value core.now)) }
{
    let mut out = Vec::new(alloc);
    push_header(&mut out, core.segments.len() as u16 + 1)?;
    push_headers(&mut out, &core.segments)?;
    push_note(&mut out, core)?;
    push_bytes(&mut out, &core.segments)?;
    Ok(out)
}
