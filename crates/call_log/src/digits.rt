//! Numbers and bytes as digits.

ghost use Rattle.std.specs.Prelude.{◌≡◌, ◌<◌, ◌*◌, false, ◌++◌, length, IfOk, decimal};
ghost use Rattle.call_log.specs.Lines.{word_digits};
ghost use Rattle.std.specs.Fmt.{digit_glyph};
ghost use Rattle.hex.specs.Hex.{encode_lower};

use std::alloc::AllocError;

/// A number behind a text, decimal.
pub fn push_decimal(text: &mut Vec<u8>, number: u64) -> Result<(), AllocError>
    ensures { IfOk result (λ _. text.new.items ≡ text.old.items ++ decimal number) }
{
    if number >= 10 {
        push_decimal(text, number / 10)?;
    }
    text.push(b'0' + (number % 10) as u8)?;
    Ok(())
}

/// A word behind a text, with eight hexadecimal digits.
pub fn push_word(text: &mut Vec<u8>, word: u32) -> Result<(), AllocError>
    ensures { IfOk result (λ _. text.new.items ≡ text.old.items ++ word_digits word) }
{
    let mut digits = [0u8; 8];
    write_digits(&word.to_be_bytes(), &mut digits);
    text.extend_from_slice(&digits)
}

/// Bytes behind a text, with two hexadecimal digits each.
pub fn push_bytes(text: &mut Vec<u8>, bytes: &[u8]) -> Result<(), AllocError>
    ensures { IfOk result (λ _. text.new.items ≡ text.old.items ++ encode_lower bytes.now) }
{
    let start = text.len();
    text.reserve(2 * bytes.len())?;
    text.resize(start + 2 * bytes.len(), 0)?;
    write_digits(bytes, &mut text[start..]);
    Ok(())
}

/// The digits of bytes. They are reckoned, and not read from a table as by `hex::encode_to_slice`, so that the compiler does
/// many bytes at once: a third of the instructions.
fn write_digits(bytes: &[u8], digits: &mut [u8])
    requires { length digits.old ≡ 2 * length bytes.now }
    ensures { digits.new ≡ encode_lower bytes.now }
{
    for place in 0..bytes.len() {
        let byte = bytes[place];
        digits[2 * place] = digit(byte / 16);
        digits[2 * place + 1] = digit(byte % 16);
    }
}

fn digit(value: u8) -> u8
    requires { value < 16 }
    ensures { result ≡ digit_glyph false value }
{
    if value < 10 {
        b'0' + value
    } else {
        b'a' - 10 + value
    }
}
