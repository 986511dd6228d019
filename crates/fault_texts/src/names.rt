//! Names of an ELF file as they are written.

ghost use Rattle.std.specs.Prelude.{◌≡◌, ◌++◌, take, IfOk};
ghost use Rattle.std.specs.List.{flat_map};
ghost use Rattle.fault_texts.specs.Names.{is_plain, begins_stand_in, escape, byte_text, first_text, bytes_text, most_shown, dots, shown, name_or};

use call_log::{push_bytes, push_decimal};
use std::alloc::AllocError;

/// The most bytes that are shown of a name.
const MOST_SHOWN: usize = 255;
/// As much of a name as tells what is shown of it.
pub const NAME_LIMIT: usize = MOST_SHOWN + 1;

/// Whether a byte is printable, no blank, and no backslash.
fn is_plain(byte: u8) -> bool
    ensures { result ≡ is_plain byte }
{
    (b'!'..=b'~').contains(&byte) && byte != b'\\'
}

/// Whether a stand-in begins with a byte.
fn begins_stand_in(byte: u8) -> bool
    ensures { result ≡ begins_stand_in byte }
{
    byte == b'#' || byte == b'@' || byte == b'*' || byte == b'-'
}

fn push_escape(text: &mut Vec<u8>, byte: u8) -> Result<(), AllocError>
    ensures { IfOk result (λ _. text.new.items ≡ text.old.items ++ escape byte) }
{
    text.extend_from_slice(b"\\x")?;
    push_bytes(text, &[byte])?;
    Ok(())
}

/// The byte itself, or `\xHH`.
fn push_byte(text: &mut Vec<u8>, byte: u8) -> Result<(), AllocError>
    ensures { IfOk result (λ _. text.new.items ≡ text.old.items ++ byte_text byte) }
{
    if is_plain(byte) {
        text.push(byte)?;
        Ok(())
    } else {
        push_escape(text, byte)
    }
}

/// The first byte of a name.
fn push_first(text: &mut Vec<u8>, byte: u8) -> Result<(), AllocError>
    ensures { IfOk result (λ _. text.new.items ≡ text.old.items ++ first_text byte) }
{
    if is_plain(byte) && !begins_stand_in(byte) {
        text.push(byte)?;
        Ok(())
    } else {
        push_escape(text, byte)
    }
}

fn push_rest(text: &mut Vec<u8>, bytes: &[u8]) -> Result<(), AllocError>
    ensures { IfOk result (λ _. text.new.items ≡ text.old.items ++ flat_map byte_text bytes.now) }
{
    for byte in bytes {
        push_byte(text, *byte)?;
    }
    Ok(())
}

fn push_name(text: &mut Vec<u8>, bytes: &[u8]) -> Result<(), AllocError>
    ensures { IfOk result (λ _. text.new.items ≡ text.old.items ++ bytes_text bytes.now) }
{
    match bytes {
        [] => Ok(()),
        [first, rest @ ..] => {
            push_first(text, *first)?;
            push_rest(text, rest)
        }
    }
}

fn start_of(name: &[u8]) -> &[u8]
    ensures { result.now ≡ take most_shown name.now }
{
    name.split_at(MOST_SHOWN.min(name.len())).0
}

fn push_dots(text: &mut Vec<u8>, name: &[u8]) -> Result<(), AllocError>
    ensures { IfOk result (λ _. text.new.items ≡ text.old.items ++ dots name.now) }
{
    if name.len() > MOST_SHOWN {
        text.extend_from_slice(b"...")?;
    }
    Ok(())
}

/// A name as it is written, behind a text.
#[tactic(auto, unfolding(crate::specs::Names::shown))]
pub fn push_shown(text: &mut Vec<u8>, name: &[u8]) -> Result<(), AllocError>
    ensures { IfOk result (λ _. text.new.items ≡ text.old.items ++ shown name.now) }
{
    push_name(text, start_of(name))?;
    push_dots(text, name)
}

/// A name by its first `NAME_LIMIT` bytes, or a sign and an index where it has none.
pub fn push_name_or(text: &mut Vec<u8>, sign: u8, index: u32, name: &[u8]) -> Result<(), AllocError>
    ensures { IfOk result (λ _. text.new.items ≡ text.old.items ++ name_or sign index name.now) }
{
    if name.is_empty() {
        text.push(sign)?;
        push_decimal(text, u64::from(index))
    } else {
        push_shown(text, name)
    }
}
