//! Pieces at the front of a text.

ghost use Rattle.std.specs.Prelude.{◌≡◌, ◌==◌, ◌<◌, ◌≤◌, ◌^◌, ◌-◌, min, position, IfOk};
ghost use Rattle.std.specs.List.{list_all};
ghost use Rattle.std.specs.Char.{digit_value};
ghost use Rattle.std.specs.Str.Parse.{digits_value};
ghost use Rattle.items_text.specs.Items.{is_string};
ghost use Rattle.items_text.specs.Pieces.{behind, cut_at, number_at, most_word, most_count, is_lower_digit, hex_of, bytes_of, bytes_at};
ghost use Rattle.items_text.specs.Reading.{Finds, string_at};

use hex::FromHexError;
use std::alloc::{AllocError, Global};

/// What is behind this front.
#[tactic(auto, unfolding(crate::specs::Pieces::behind))]
pub fn behind<'a>(front: &[u8], text: &'a [u8]) -> Option<&'a [u8]>
    ensures { Finds (λ rest. rest.now) result (behind front.now text.now) }
{
    text.strip_prefix(front)
}

fn place_of(byte: u8, text: &[u8]) -> Option<usize>
    ensures { result ≡ position (λ b. b == byte) text.now }
{
    text.iter().position(|b| *b == byte)
}

/// What stands before the first such byte, and behind it.
#[tactic(auto, unfolding(crate::specs::Pieces::cut_at))]
pub fn cut_at(byte: u8, text: &[u8]) -> Option<(&[u8], &[u8])>
    ensures { Finds (λ piece. (piece.0.now, piece.1.now)) result (cut_at byte text.now) }
{
    let place = place_of(byte, text)?;
    Some((&text[..place], &text[place + 1..]))
}

/// The value of a digit or a letter, 36 for anything else.
fn digit_value(byte: u8) -> u64
    ensures { result ≡ digit_value byte }
{
    match byte {
        b'0'..=b'9' => u64::from(byte) - 48,
        b'A'..=b'Z' => u64::from(byte) - 55,
        b'a'..=b'z' => u64::from(byte) - 87,
        _ => 36,
    }
}

/// The value of digits, or the most that a `u64` says where it is more.
fn digits_value(radix: u64, text: &[u8]) -> u64
    requires { 1 ≤ radix }
    ensures { result ≡ min (digits_value radix text.now) most_count }
{
    let mut value: u64 = 0;
    for byte in text {
        value = value
            .saturating_mul(radix)
            .saturating_add(digit_value(*byte));
    }
    value
}

/// A number before the first such byte, and what is behind it.
#[tactic(auto, unfolding(crate::specs::Pieces::number_at))]
pub fn count_at(radix: u64, byte: u8, text: &[u8]) -> Option<(u64, &[u8])>
    requires { 1 ≤ radix }
    ensures { Finds (λ read. (read.0, read.1.now)) result (number_at radix most_count byte text.now) }
{
    let (digits, rest) = cut_at(byte, text)?;
    Some((digits_value(radix, digits), rest))
}

/// The same of a number of 32 bits.
#[tactic(auto, unfolding(crate::specs::Pieces::number_at))]
pub fn word_at(radix: u64, byte: u8, text: &[u8]) -> Option<(u32, &[u8])>
    requires { 1 ≤ radix }
    ensures { Finds (λ read. (read.0, read.1.now)) result (number_at radix most_word byte text.now) }
{
    let (digits, rest) = cut_at(byte, text)?;
    Some((cut_word(digits_value(radix, digits)), rest))
}

/// The number, or the most that a `u32` says where it is more.
fn cut_word(value: u64) -> u32
    ensures { result ≡ min value most_word }
{
    value.min(u64::from(u32::MAX)) as u32
}

fn all_lower_digits(text: &[u8]) -> bool
    ensures { result ≡ list_all is_lower_digit text.now }
{
    for byte in text {
        if !is_lower_digit(*byte) {
            return false;
        }
    }
    true
}

fn is_lower_digit(byte: u8) -> bool
    ensures { result ≡ is_lower_digit byte }
{
    matches!(byte, b'0'..=b'9' | b'a'..=b'f')
}

/// The bytes of two lower case digits each, at least one.
#[tactic(auto, unfolding(crate::specs::Pieces::hex_of))]
pub fn hex_of(alloc: Global, word: &[u8]) -> Result<Option<Vec<u8>>, AllocError>
    ensures { IfOk result (λ read. Finds (λ bytes. bytes.items) read (hex_of word.now)) }
{
    if word.is_empty() || !all_lower_digits(word) {
        return Ok(None);
    }
    match hex::decode(alloc, word) {
        Ok(bytes) => Ok(Some(bytes)),
        Err(FromHexError::OutOfMemory) => Err(AllocError),
        Err(_) => Ok(None),
    }
}

/// The same, or `-` for none.
#[tactic(auto, unfolding(crate::specs::Pieces::bytes_of))]
fn bytes_of(alloc: Global, word: &[u8]) -> Result<Option<Vec<u8>>, AllocError>
    ensures { IfOk result (λ read. Finds (λ bytes. bytes.items) read (bytes_of word.now)) }
{
    if word == b"-".as_slice() {
        return Ok(Some(Vec::new(alloc)));
    }
    hex_of(alloc, word)
}

/// Bytes before the first such byte, and what is behind it.
#[tactic(auto, unfolding(crate::specs::Pieces::bytes_at))]
pub fn bytes_at(
    alloc: Global,
    byte: u8,
    text: &[u8],
) -> Result<Option<(Vec<u8>, &[u8])>, AllocError>
    ensures { IfOk result (λ read. Finds (λ r. (r.0.items, r.1.now)) read (bytes_at byte text.now)) }
{
    let Some((word, rest)) = cut_at(byte, text) else {
        return Ok(None);
    };
    let Some(bytes) = bytes_of(alloc, word)? else {
        return Ok(None);
    };
    Ok(Some((bytes, rest)))
}

/// Whether no byte is zero.
#[tactic(auto, unfolding(crate::specs::Items::is_string))]
fn is_string(bytes: &[u8]) -> bool
    ensures { result ≡ is_string bytes.now }
{
    for byte in bytes {
        if *byte == 0 {
            return false;
        }
    }
    true
}

/// A string behind this front, up to the end of its line, and what is behind it.
#[tactic(auto, unfolding(crate::specs::Reading::string_at))]
pub fn string_at<'a>(
    alloc: Global,
    front: &[u8],
    text: &'a [u8],
) -> Result<Option<(Vec<u8>, &'a [u8])>, AllocError>
    ensures { IfOk result (λ read. Finds (λ r. (r.0.items, r.1.now)) read (string_at front.now text.now)) }
{
    let Some(rest) = behind(front, text) else {
        return Ok(None);
    };
    let Some((bytes, rest)) = bytes_at(alloc, b'\n', rest)? else {
        return Ok(None);
    };
    if !is_string(&bytes) {
        return Ok(None);
    }
    Ok(Some((bytes, rest)))
}
