//! Numbers as they are written.

ghost use Rattle.std.specs.Prelude.{◌≡◌, ◌-◌, ◌^◌, ◌≤◌, length, true, min, Some, None, if◌then◌else◌, ◌<◌, IfSome, IfOk};
ghost use Rattle.std.specs.List.{list_all};
ghost use Rattle.manifest_text.specs.Numbers.{is_digit, is_hex_digit, hex_digit_value, decimal_value, hex_value, is_number, number_in, address, is_pair, pair_value, is_quantum, quantum_value};
ghost use Rattle.manifest_text.specs.Values.{texts};

use crate::pieces::pieces;
use quantum_sched::Quantum;
use std::alloc::{AllocError, Global};

/// The number that a word spells in decimal, if it lies in a range.
#[tactic(auto, unfolding(crate::specs::Numbers::is_number_in))]
pub fn number_in(text: &[u8], least: u32, most: u32) -> Option<u32>
    ensures { result ≡ number_in least most text.now }
{
    if !is_number(text) {
        return None;
    }
    let value = decimal_value(text);
    if value < u64::from(least) || value > u64::from(most) {
        return None;
    }
    Some(value as u32)
}

fn is_number(text: &[u8]) -> bool
    ensures { result ≡ is_number text.now }
{
    match text {
        [] => false,
        [_] => all_digits(text),
        [first, ..] => all_digits(text) && *first > b'0',
    }
}

fn all_digits(text: &[u8]) -> bool
    ensures { result ≡ list_all is_digit text.now }
{
    for byte in text {
        if !(b'0'..=b'9').contains(byte) {
            return false;
        }
    }
    true
}

/// The value of digits, or the most that a `u64` says where it is more.
#[tactic(auto, unfolding(crate::specs::Numbers::decimal_value))]
fn decimal_value(text: &[u8]) -> u64
    ensures { result ≡ min (decimal_value text.now) (2 ^ 64 - 1) }
{
    let mut value: u64 = 0;
    for byte in text {
        value = value
            .saturating_mul(10)
            .saturating_add(u64::from(byte.saturating_sub(b'0')));
    }
    value
}

/// The address that a word spells: `0x` and one to eight hexadecimal digits in lower case.
#[tactic(auto, unfolding(crate::specs::Numbers::is_address, crate::specs::Numbers::address_value))]
pub fn address(text: &[u8]) -> Option<u32>
    ensures { result ≡ address text.now }
{
    match text {
        [b'0', b'x', digits @ ..] if !digits.is_empty() && digits.len() <= 8 => hex_value(digits),
        _ => None,
    }
}

#[tactic(auto, unfolding(crate::specs::Numbers::hex_value))]
fn hex_value(digits: &[u8]) -> Option<u32>
    requires { length digits.now ≤ 8 }
    ensures { result ≡ (if list_all is_hex_digit digits.now then Some (hex_value digits.now) else None) }
{
    let mut value = 0;
    for digit in digits {
        value = value * 16 + hex_digit(*digit)?;
    }
    Some(value)
}

fn hex_digit(byte: u8) -> Option<u32>
    ensures value { result ≡ (if is_hex_digit byte then Some (hex_digit_value byte) else None) }
    ensures small { IfSome result (λ d. d < 16) }
{
    match byte {
        b'0'..=b'9' => Some(u32::from(byte - b'0')),
        b'a'..=b'f' => Some(u32::from(byte - b'a') + 10),
        _ => None,
    }
}

/// The quantum that a word `K:N` spells.
#[tactic(auto, unfolding(crate::specs::Numbers::is_quantum, crate::specs::Numbers::quantum_value))]
pub fn quantum(alloc: Global, word: &[u8]) -> Result<Option<Quantum>, AllocError>
    ensures { IfOk result (λ q. q ≡ (if is_quantum word.now then Some (quantum_value word.now) else None)) }
{
    let parts = pieces(alloc, word, b':')?;
    Ok(pair(&parts))
}

fn pair(parts: &[&[u8]]) -> Option<Quantum>
    ensures { result ≡ (if is_pair (texts parts.now) then Some (pair_value (texts parts.now)) else None) }
{
    match parts {
        [pick, count] => {
            let pick = number_in(pick, 0, u32::MAX)?;
            let count = number_in(count, 1, 1_000_000)?;
            Some(Quantum { pick, count })
        }
        _ => None,
    }
}
