//! The line that a note is written as.

ghost use Rattle.std.specs.Prelude.{◌≡◌, [], ◌∷◌, ◌++◌, map, length, codes, decimal, IfOk};
ghost use Rattle.call_log.specs.Values.{got_value, entry_value, note_value};
ghost use Rattle.std.specs.List.{flat_map};
ghost use Rattle.call_log.specs.Lines.{joined, word_digits, arg_text, sent_text, item_text, got_text, call_line, load_line, end_line, kind_text, stray_line, line};
ghost use Rattle.call_log.specs.Programs.{IsProgramBelow, paths_of};

use crate::digits::{push_bytes, push_decimal, push_word};
use crate::how::How;
use crate::note::{Entry, Got, Note};
use byte_words::{Access, AccessKind};
use std::alloc::AllocError;

/// The most bytes of a call's line, but for those that were sent and got.
const CALL_ROOM: usize = 105;

/// Adds the line of a note, with its newline. `paths` are those of the programs, in their order.
pub fn push_line(text: &mut Vec<u8>, note: &Note, paths: &[Vec<u8>]) -> Result<(), AllocError>
    requires { IsProgramBelow (length paths.now) (note_value note.now) }
    ensures { IfOk result (λ _. text.new.items ≡ text.old.items ++ line (paths_of paths.now) (note_value note.now)) }
{
    match note {
        Note::Call(entry) => push_call(text, entry),
        Note::Load {
            pid,
            program,
            base,
            pages,
        } => push_load(text, *pid, &paths[*program as usize], *base, *pages),
        Note::End { pid, how } => push_end(text, *pid, *how),
        Note::Stray { pid, access } => push_stray(text, *pid, *access),
    }
}

/// `load PID PATH base 0xBLOCK pages N`
fn push_load(
    text: &mut Vec<u8>,
    pid: u32,
    path: &[u8],
    base: u32,
    pages: u32,
) -> Result<(), AllocError>
    ensures { IfOk result (λ _. text.new.items ≡ text.old.items ++ load_line path.now (record { pid = pid; program = 0; base = base; pages = pages })) }
{
    push_number(text, b"load ", pid)?;
    text.push(b' ')?;
    text.extend_from_slice(path)?;
    push_hex(text, b" base 0x", base)?;
    push_number(text, b" pages ", pages)?;
    text.push(b'\n')?;
    Ok(())
}

/// `call PID NUMBER A0 A1 A2 A3 A4 A5 = REPLY sent HEX got ITEMS`
fn push_call(text: &mut Vec<u8>, entry: &Entry) -> Result<(), AllocError>
    ensures { IfOk result (λ _. text.new.items ≡ text.old.items ++ call_line (entry_value entry.now)) }
{
    text.reserve(CALL_ROOM.saturating_add(2 * entry.sent.len()))?;
    push_call_head(text, entry.pid, entry.call, &entry.args, entry.reply)?;
    push_sent(text, &entry.sent)?;
    text.extend_from_slice(b" got")?;
    push_got(text, &entry.got)?;
    text.push(b'\n')?;
    Ok(())
}

/// `call PID NUMBER A0 A1 A2 A3 A4 A5 = REPLY sent `
pub fn push_call_head(
    text: &mut Vec<u8>,
    pid: u32,
    call: u32,
    args: &[u32],
    reply: u32,
) -> Result<(), AllocError>
    ensures { IfOk result (λ _. text.new.items ≡ text.old.items ++ joined
        (codes "call " ∷ decimal pid ∷ codes " " ∷ decimal call ∷ flat_map arg_text args.now ∷ codes " = " ∷ word_digits reply
        ∷ codes " sent " ∷ [])) }
{
    push_number(text, b"call ", pid)?;
    push_number(text, b" ", call)?;
    push_args(text, args)?;
    push_hex(text, b" = ", reply)?;
    text.extend_from_slice(b" sent ")
}

/// Eight digits behind a space, for each of them.
fn push_args(text: &mut Vec<u8>, args: &[u32]) -> Result<(), AllocError>
    ensures { IfOk result (λ _. text.new.items ≡ text.old.items ++ flat_map arg_text args.now) }
{
    for arg in args {
        push_arg(text, *arg)?;
    }
    Ok(())
}

fn push_arg(text: &mut Vec<u8>, arg: u32) -> Result<(), AllocError>
    ensures { IfOk result (λ _. text.new.items ≡ text.old.items ++ arg_text arg) }
{
    text.push(b' ')?;
    push_word(text, arg)
}

/// Two digits a byte, or `-`.
pub fn push_sent(text: &mut Vec<u8>, bytes: &[u8]) -> Result<(), AllocError>
    ensures { IfOk result (λ _. text.new.items ≡ text.old.items ++ sent_text bytes.now) }
{
    if bytes.is_empty() {
        text.push(b'-')?;
        return Ok(());
    }
    push_bytes(text, bytes)
}

/// Each range that was written, or `-`, behind a space each.
pub fn push_got(text: &mut Vec<u8>, got: &[Got]) -> Result<(), AllocError>
    ensures { IfOk result (λ _. text.new.items ≡ text.old.items ++ got_text (map got_value got.now)) }
{
    if got.is_empty() {
        return text.extend_from_slice(b" -");
    }
    push_items(text, got)
}

fn push_items(text: &mut Vec<u8>, got: &[Got]) -> Result<(), AllocError>
    ensures { IfOk result (λ _. text.new.items ≡ text.old.items ++ flat_map item_text (map got_value got.now)) }
{
    for item in got {
        push_item(text, item)?;
    }
    Ok(())
}

/// `ADDR:HEX` behind a space.
fn push_item(text: &mut Vec<u8>, item: &Got) -> Result<(), AllocError>
    ensures { IfOk result (λ _. text.new.items ≡ text.old.items ++ item_text (got_value item.now)) }
{
    push_arg(text, item.addr)?;
    text.push(b':')?;
    push_bytes(text, &item.bytes)
}

/// `end PID exit CODE` or `end PID signal NUMBER`
fn push_end(text: &mut Vec<u8>, pid: u32, how: How) -> Result<(), AllocError>
    ensures { IfOk result (λ _. text.new.items ≡ text.old.items ++ end_line pid how) }
{
    let (word, number) = match how {
        How::Exit(code) => (" exit ", code),
        How::Signal(number) => (" signal ", number),
    };
    push_number(text, b"end ", pid)?;
    push_number(text, word.as_bytes(), u32::from(number))?;
    text.push(b'\n')?;
    Ok(())
}

/// `stray PID pc 0xPC addr 0xADDR len LEN KIND`
fn push_stray(text: &mut Vec<u8>, pid: u32, access: Access) -> Result<(), AllocError>
    ensures { IfOk result (λ _. text.new.items ≡ text.old.items ++ stray_line pid access) }
{
    push_number(text, b"stray ", pid)?;
    push_hex(text, b" pc 0x", access.pc)?;
    push_hex(text, b" addr 0x", access.addr)?;
    push_number(text, b" len ", access.len)?;
    text.push(b' ')?;
    text.extend_from_slice(kind_text(access.kind).as_bytes())?;
    text.push(b'\n')?;
    Ok(())
}

/// A number, decimal, behind this front.
fn push_number(text: &mut Vec<u8>, front: &[u8], number: u32) -> Result<(), AllocError>
    ensures { IfOk result (λ _. text.new.items ≡ text.old.items ++ front.now ++ decimal number) }
{
    text.extend_from_slice(front)?;
    push_decimal(text, u64::from(number))
}

/// A word with eight digits behind this front.
fn push_hex(text: &mut Vec<u8>, front: &[u8], word: u32) -> Result<(), AllocError>
    ensures { IfOk result (λ _. text.new.items ≡ text.old.items ++ front.now ++ word_digits word) }
{
    text.extend_from_slice(front)?;
    push_word(text, word)
}

/// What an access is for, as its line has it.
pub fn kind_text(kind: AccessKind) -> &'static str
    ensures { result.now ≡ kind_text kind }
{
    match kind {
        AccessKind::Fetch => "fetch",
        AccessKind::Load => "load",
        AccessKind::Store => "store",
        AccessKind::Call => "call",
    }
}
