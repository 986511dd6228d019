//! Numbers in a slice of bytes, by the offset of their first byte.

ghost use Rattle.std.specs.Prelude.{◌≡◌, ◌+◌, ◌<◌, ◌≤◌, length};
ghost use Rattle.byte_words.specs.Numbers.{low_first, high_first, byte_at, number_at};

use byteorder::{BigEndian, ByteOrder, LittleEndian};

/// The byte at an offset.
#[tactic(auto, unfolding(crate::specs::Numbers::byte_at))]
#[inline]
pub fn byte(bytes: &[u8], at: usize) -> u8
    requires { at < length bytes.now }
    ensures { result ≡ byte_at bytes.now at }
{
    bytes[at]
}

/// The number of two bytes from an offset on, the lowest first.
#[tactic(auto, unfolding(crate::specs::Numbers::number_at))]
#[inline]
pub fn half(bytes: &[u8], at: usize) -> u16
    requires { at + 2 ≤ length bytes.now }
    ensures { result ≡ number_at low_first 2 bytes.now at }
{
    LittleEndian::read_u16(bytes.split_at(at).1)
}

/// The number of four bytes from an offset on, the lowest first.
#[tactic(auto, unfolding(crate::specs::Numbers::number_at))]
#[inline]
pub fn word(bytes: &[u8], at: usize) -> u32
    requires { at + 4 ≤ length bytes.now }
    ensures { result ≡ number_at low_first 4 bytes.now at }
{
    LittleEndian::read_u32(bytes.split_at(at).1)
}

/// The number of four bytes from an offset on, the highest first.
#[tactic(auto, unfolding(crate::specs::Numbers::number_at))]
#[inline]
pub fn big_word(bytes: &[u8], at: usize) -> u32
    requires { at + 4 ≤ length bytes.now }
    ensures { result ≡ number_at high_first 4 bytes.now at }
{
    BigEndian::read_u32(bytes.split_at(at).1)
}
