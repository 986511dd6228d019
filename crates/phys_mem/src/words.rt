//! Little-endian numbers of one, two or four bytes in a slice.

ghost use Rattle.std.specs.Prelude.{◌≡◌, ◌⊎◌, ◌+◌, ◌^◌, ◌<◌, ◌≤◌, IfOk, length, replicate};
ghost use Rattle.byte_words.specs.ByteMap.{little, little_bytes};
ghost use Rattle.byte_words.specs.Patches.{laid};

use std::alloc::{AllocError, Global};

/// So many bytes, all zero.
pub fn zeros(alloc: Global, len: usize) -> Result<Vec<u8>, AllocError>
    ensures { IfOk result (λ bytes. bytes.items ≡ replicate len 0) }
{
    Ok(vec![in alloc; 0; len]?)
}

/// The number of `len` bytes.
#[inline]
pub fn read(bytes: &[u8], at: usize, len: u32) -> u32
    requires len { (len ≡ 1) ⊎ (len ≡ 2) ⊎ (len ≡ 4) }
    requires within { at + len ≤ length bytes.now }
    ensures value { result ≡ little bytes.now at len }
    ensures fits { result < 256 ^ len }
{
    match len {
        1 => u32::from(bytes[at]),
        2 => u32::from(u16::from_le_bytes([bytes[at], bytes[at + 1]])),
        _ => u32::from_le_bytes([bytes[at], bytes[at + 1], bytes[at + 2], bytes[at + 3]]),
    }
}

/// The lowest `len` bytes of a number, over those from a place on. They are side by side, and one store.
#[inline]
pub fn write(bytes: &mut Vec<u8>, at: usize, len: u32, value: u32)
    requires len { (len ≡ 1) ⊎ (len ≡ 2) ⊎ (len ≡ 4) }
    requires within { at + len ≤ length bytes.old.items }
    ensures { bytes.new.items ≡ laid bytes.old.items at (little_bytes len value) }
{
    let [b0, b1, b2, b3] = value.to_le_bytes();
    match len {
        1 => copy_over(bytes, at, &[b0]),
        2 => copy_over(bytes, at, &[b0, b1]),
        _ => copy_over(bytes, at, &[b0, b1, b2, b3]),
    }
}

/// Copies bytes over those from a place on.
#[inline]
pub fn copy_over(bytes: &mut Vec<u8>, at: usize, from: &[u8])
    requires { at + length from.now ≤ length bytes.old.items }
    ensures { bytes.new.items ≡ laid bytes.old.items at from.now }
{
    bytes[at..at + from.len()].copy_from_slice(from);
}

/// Makes `len` bytes zero from a place on.
pub fn zero(bytes: &mut Vec<u8>, at: usize, len: usize)
    requires { at + len ≤ length bytes.old.items }
    ensures { bytes.new.items ≡ laid bytes.old.items at (replicate len 0) }
{
    bytes[at..at + len].fill(0);
}
