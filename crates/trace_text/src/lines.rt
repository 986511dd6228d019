//! The line of a system call.

ghost use Rattle.std.specs.Prelude.{◌≡◌, ◌==◌, ◌++◌, ◌≤◌, take, length, IfOk, position, decimal};
ghost use Rattle.call_log.specs.Values.{entry_value};
ghost use Rattle.call_log.specs.Strings.{before_zero};
ghost use Rattle.trace_text.specs.Errors.{error_text};
ghost use Rattle.trace_text.specs.Lines.{name_text, is_plain, escape, quoted_byte, quoted, signed_digits, most_shown, dots, data_text, arg_text, arg_texts, separator, separated, word_text, reply_text, trace_line};

use crate::call::{Call, replies_address};
use crate::error::{error_name, error_of, is_error};
use crate::form::{Form, forms_of};
use call_log::{Entry, push_bytes, push_decimal, push_word};
use std::alloc::{AllocError, Global};

/// The most bytes that are shown of what a call wrote.
const MOST_SHOWN: usize = 32;

/// `trace PID NAME(ARGS) = REPLY`, with its newline.
pub fn line(alloc: Global, entry: &Entry) -> Result<Vec<u8>, AllocError>
    ensures { IfOk result (λ text. text.items ≡ trace_line (entry_value entry.now)) }
{
    let mut text = Vec::new(alloc);
    push_line(&mut text, entry)?;
    Ok(text)
}

/// The same behind a text.
pub(crate) fn push_line(text: &mut Vec<u8>, entry: &Entry) -> Result<(), AllocError>
    ensures { IfOk result (λ _. text.new.items ≡ text.old.items ++ trace_line (entry_value entry.now)) }
{
    push_number(text, b"trace ", u64::from(entry.pid))?;
    text.push(b' ')?;
    push_name(text, entry.call)?;
    text.push(b'(')?;
    push_args(
        text,
        forms_of(Call::of(entry.call)),
        &entry.args,
        &entry.sent,
    )?;
    text.extend_from_slice(b") = ")?;
    push_reply(text, entry.call, entry.reply)?;
    text.push(b'\n')?;
    Ok(())
}

/// A number, decimal, behind this front.
pub(crate) fn push_number(text: &mut Vec<u8>, front: &[u8], number: u64) -> Result<(), AllocError>
    ensures { IfOk result (λ _. text.new.items ≡ text.old.items ++ front.now ++ decimal number) }
{
    text.extend_from_slice(front)?;
    push_decimal(text, number)
}

/// The name of a call, or `call_N`.
pub(crate) fn push_name(text: &mut Vec<u8>, number: u32) -> Result<(), AllocError>
    ensures { IfOk result (λ _. text.new.items ≡ text.old.items ++ name_text number) }
{
    match Call::of(number) {
        Some(call) => text.extend_from_slice(call.name().as_bytes()),
        None => push_number(text, b"call_", u64::from(number)),
    }
}

/// The arguments in their forms, with a comma and a space between each two.
fn push_args(
    text: &mut Vec<u8>,
    forms: &[Form],
    args: &[u32],
    sent: &[u8],
) -> Result<(), AllocError>
    requires { length forms.now ≤ length args.now }
    ensures { IfOk result (λ _. text.new.items ≡ text.old.items ++ separated (arg_texts forms.now args.now sent.now)) }
{
    for (index, form) in forms.iter().enumerate() {
        push_separator(text, index)?;
        push_arg(text, *form, args[index], sent)?;
    }
    Ok(())
}

/// Nothing in front of the first argument.
fn push_separator(text: &mut Vec<u8>, index: usize) -> Result<(), AllocError>
    ensures { IfOk result (λ _. text.new.items ≡ text.old.items ++ separator index) }
{
    if index > 0 {
        text.extend_from_slice(b", ")?;
    }
    Ok(())
}

fn push_arg(text: &mut Vec<u8>, form: Form, arg: u32, sent: &[u8]) -> Result<(), AllocError>
    ensures { IfOk result (λ _. text.new.items ≡ text.old.items ++ arg_text form arg sent.now) }
{
    match form {
        Form::Decimal => push_signed(text, arg),
        Form::Word => push_address(text, arg),
        Form::Path => push_quoted(text, before_zero(sent)),
        Form::Data => push_data(text, sent),
    }
}

/// A word as a number of two's complement.
fn push_signed(text: &mut Vec<u8>, word: u32) -> Result<(), AllocError>
    ensures { IfOk result (λ _. text.new.items ≡ text.old.items ++ signed_digits word) }
{
    if word < 1 << 31 {
        push_decimal(text, u64::from(word))
    } else {
        push_number(text, b"-", u64::from(u32::MAX - word + 1))
    }
}

/// `0x` and eight digits.
fn push_address(text: &mut Vec<u8>, word: u32) -> Result<(), AllocError>
    ensures { IfOk result (λ _. text.new.items ≡ text.old.items ++ word_text word) }
{
    text.extend_from_slice(b"0x")?;
    push_word(text, word)
}

fn first_zero(bytes: &[u8]) -> Option<usize>
    ensures { result ≡ position (λ b. b == 0) bytes.now }
{
    bytes.iter().position(|b| *b == 0)
}

/// The bytes up to the first zero, or all of them.
fn before_zero(bytes: &[u8]) -> &[u8]
    ensures { result.now ≡ before_zero bytes.now }
{
    match first_zero(bytes) {
        Some(end) => bytes.split_at(end).0,
        None => bytes,
    }
}

/// The first bytes in quotes, and dots where there are more.
fn push_data(text: &mut Vec<u8>, sent: &[u8]) -> Result<(), AllocError>
    ensures { IfOk result (λ _. text.new.items ≡ text.old.items ++ data_text sent.now) }
{
    push_quoted(text, start_of(sent))?;
    push_dots(text, sent)
}

fn start_of(sent: &[u8]) -> &[u8]
    ensures { result.now ≡ take most_shown sent.now }
{
    sent.split_at(MOST_SHOWN.min(sent.len())).0
}

fn push_dots(text: &mut Vec<u8>, sent: &[u8]) -> Result<(), AllocError>
    ensures { IfOk result (λ _. text.new.items ≡ text.old.items ++ dots sent.now) }
{
    if sent.len() > MOST_SHOWN {
        text.extend_from_slice(b"...")?;
    }
    Ok(())
}

fn push_quoted(text: &mut Vec<u8>, bytes: &[u8]) -> Result<(), AllocError>
    ensures { IfOk result (λ _. text.new.items ≡ text.old.items ++ quoted bytes.now) }
{
    text.push(b'"')?;
    for byte in bytes {
        push_byte(text, *byte)?;
    }
    text.push(b'"')?;
    Ok(())
}

/// The byte itself, or `\xHH`.
fn push_byte(text: &mut Vec<u8>, byte: u8) -> Result<(), AllocError>
    ensures { IfOk result (λ _. text.new.items ≡ text.old.items ++ quoted_byte byte) }
{
    if is_plain(byte) {
        text.push(byte)?;
        Ok(())
    } else {
        push_escape(text, byte)
    }
}

fn push_escape(text: &mut Vec<u8>, byte: u8) -> Result<(), AllocError>
    ensures { IfOk result (λ _. text.new.items ≡ text.old.items ++ escape byte) }
{
    text.extend_from_slice(b"\\x")?;
    push_bytes(text, &[byte])?;
    Ok(())
}

/// Whether a byte is printable, and neither the quote nor the backslash.
fn is_plain(byte: u8) -> bool
    ensures { result ≡ is_plain byte }
{
    (b' '..=b'~').contains(&byte) && byte != b'"' && byte != b'\\'
}

/// An error behind a minus sign, an address with eight digits, or a number.
fn push_reply(text: &mut Vec<u8>, call: u32, reply: u32) -> Result<(), AllocError>
    ensures { IfOk result (λ _. text.new.items ≡ text.old.items ++ reply_text call reply) }
{
    if is_error(reply) {
        text.push(b'-')?;
        push_error(text, u32::MAX - reply + 1)
    } else if replies_address(Call::of(call)) {
        push_address(text, reply)
    } else {
        push_decimal(text, u64::from(reply))
    }
}

/// The name of an error, or its number.
fn push_error(text: &mut Vec<u8>, number: u32) -> Result<(), AllocError>
    ensures { IfOk result (λ _. text.new.items ≡ text.old.items ++ error_text number) }
{
    match error_of(number) {
        Some(error) => text.extend_from_slice(error_name(error).as_bytes()),
        None => push_decimal(text, u64::from(number)),
    }
}
