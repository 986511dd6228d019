//! The bytes that a system call reads.

ghost use Rattle.std.specs.Prelude.{◌≡◌, ◌*◌, ◌≤◌, IfOk, OnErr, length, slice_index};
ghost use Rattle.byte_words.specs.Numbers.{low_first, number_at};
ghost use Rattle.call_log.specs.Sent.{read_span, read_spans, piece_spans, data_spans, write_sent, writev_sent, readv_sent, path_sent, has_path, has_zero, string_from, list_sent, exec_sent, sent};
ghost use Rattle.region_watch.specs.Private.{own_bytes};
ghost use Rattle.call_bytes.specs.Reading.{Reads, ReadsByte, Appends, AppendsNumber, ReadsOn};

use crate::unread::Unread;
use byte_words::word;
use call_log::numbers;
use mmap_rules::Owners;
use phys_mem::{BASE, PhysMem};
use std::alloc::Global;

/// The most bytes that one call moves.
const MOST_MOVED: u32 = 16_777_216;

/// The most pieces of one call, Linux's UIO_MAXIOV.
const MOST_PIECES: u32 = 1024;

/// The most bytes that are read of a path.
const MOST_PATH: u32 = 4096;

/// The most bytes of the arguments and the environment of a program: four for each pointer, and those of the strings with
/// their zeros.
const MOST_STRINGS: u32 = 1_048_576;

/// Adds the bytes of a range, with one copy. Where it strays or memory is out, nothing is added.
pub fn read_range(
    mem: &PhysMem,
    owners: &Owners,
    addr: u32,
    len: u32,
    into: &mut Vec<u8>,
) -> Result<(), Unread>
    requires memory { length mem.now ≡ 4096 * length owners.now }
    ensures bytes { Appends (read_span (own_bytes owners.now mem.now) (record { addr = addr; len = len })) into.old.items into.new.items result }
    ensures same { OnErr result (into.new.items ≡ into.old.items) }
{
    if len == 0 {
        return Ok(());
    }
    if !owners.own(addr, len, false) {
        return Err(Unread::Stray { addr, len });
    }
    let from = (addr - BASE) as usize;
    into.extend_from_slice(&mem.as_slice()[from..from + len as usize])?;
    Ok(())
}

/// What a write reads.
fn read_write(
    alloc: Global,
    mem: &PhysMem,
    owners: &Owners,
    at: u32,
    len: u32,
) -> Result<Vec<u8>, Unread>
    requires memory { length mem.now ≡ 4096 * length owners.now }
    ensures { Reads (write_sent (own_bytes owners.now mem.now) at len) result }
{
    let mut bytes = Vec::new(alloc);
    read_range(mem, owners, at, len.min(MOST_MOVED), &mut bytes)?;
    Ok(bytes)
}

/// The structs that say where the data of a writev or a readv stands. Each is an access of its own.
fn read_pieces(
    alloc: Global,
    mem: &PhysMem,
    owners: &Owners,
    at: u32,
    count: u32,
) -> Result<Vec<u8>, Unread>
    requires memory { length mem.now ≡ 4096 * length owners.now }
    requires few { count ≤ 1024 }
    ensures read { Reads (read_spans (own_bytes owners.now mem.now) (piece_spans at count)) result }
    ensures len { IfOk result (λ pieces. length pieces.items ≡ 8 * count) }
{
    let mut pieces = Vec::new(alloc);
    for i in 0..count {
        read_range(mem, owners, at.wrapping_add(8 * i), 8, &mut pieces)?;
    }
    Ok(pieces)
}

/// A byte of its own.
fn read_byte(mem: &PhysMem, owners: &Owners, addr: u32) -> Result<u8, Unread>
    requires memory { length mem.now ≡ 4096 * length owners.now }
    ensures { ReadsByte (read_span (own_bytes owners.now mem.now) (record { addr = addr; len = 1 })) result }
{
    if !owners.own(addr, 1, false) {
        return Err(Unread::Stray { addr, len: 1 });
    }
    Ok(mem.get8(addr))
}

/// A path, up to its zero. Each byte is an access of its own, and none is read behind the zero.
fn read_path(alloc: Global, mem: &PhysMem, owners: &Owners, at: u32) -> Result<Vec<u8>, Unread>
    requires memory { length mem.now ≡ 4096 * length owners.now }
    ensures { Reads (path_sent (own_bytes owners.now mem.now) at) result }
{
    let mut path = Vec::new(alloc);
    for i in 0..MOST_PATH {
        let byte = read_byte(mem, owners, at.wrapping_add(i))?;
        if path.push(byte).is_err() {
            return Err(Unread::Memory);
        }
        if byte == 0 {
            return Ok(path);
        }
    }
    Ok(path)
}

/// Adds the data of a writev: its pieces, cut where their sum would pass the most that a call moves.
fn read_data(
    mem: &PhysMem,
    owners: &Owners,
    pieces: &[u8],
    count: u32,
    into: &mut Vec<u8>,
) -> Result<(), Unread>
    requires memory { length mem.now ≡ 4096 * length owners.now }
    requires few { count ≤ 1024 }
    requires pieces { length pieces.now ≡ 8 * count }
    ensures { Appends (read_spans (own_bytes owners.now mem.now) (data_spans count pieces.now)) into.old.items into.new.items result }
{
    let mut left = MOST_MOVED;
    for i in 0..count {
        let at = 8 * i as usize;
        let len = word(pieces, at + 4);
        read_range(mem, owners, word(pieces, at), len.min(left), into)?;
        left = left.saturating_sub(len);
    }
    Ok(())
}

/// What a writev reads: its pieces, and their data.
fn read_writev(
    alloc: Global,
    mem: &PhysMem,
    owners: &Owners,
    at: u32,
    count: u32,
) -> Result<Vec<u8>, Unread>
    requires memory { length mem.now ≡ 4096 * length owners.now }
    ensures { Reads (writev_sent (own_bytes owners.now mem.now) at count) result }
{
    if count > MOST_PIECES {
        return Ok(Vec::new(alloc));
    }
    let pieces = read_pieces(alloc, mem, owners, at, count)?;
    let mut bytes = Vec::from_slice(alloc, &pieces)?;
    read_data(mem, owners, &pieces, count, &mut bytes)?;
    Ok(bytes)
}

/// What a readv reads: its pieces.
fn read_readv(
    alloc: Global,
    mem: &PhysMem,
    owners: &Owners,
    at: u32,
    count: u32,
) -> Result<Vec<u8>, Unread>
    requires memory { length mem.now ≡ 4096 * length owners.now }
    ensures { Reads (readv_sent (own_bytes owners.now mem.now) at count) result }
{
    if count > MOST_PIECES {
        return Ok(Vec::new(alloc));
    }
    read_pieces(alloc, mem, owners, at, count)
}

/// Adds a byte of its own.
fn add_byte(mem: &PhysMem, owners: &Owners, addr: u32, into: &mut Vec<u8>) -> Result<u8, Unread>
    requires memory { length mem.now ≡ 4096 * length owners.now }
    ensures { AppendsNumber (λ bytes. slice_index bytes 0) (read_span (own_bytes owners.now mem.now) (record { addr = addr; len = 1 })) into.old.items into.new.items result }
{
    let byte = read_byte(mem, owners, addr)?;
    if into.push(byte).is_err() {
        return Err(Unread::Memory);
    }
    Ok(byte)
}

/// Adds a word of its own.
fn add_word(mem: &PhysMem, owners: &Owners, addr: u32, into: &mut Vec<u8>) -> Result<u32, Unread>
    requires memory { length mem.now ≡ 4096 * length owners.now }
    ensures { AppendsNumber (λ bytes. number_at low_first 4 bytes 0) (read_span (own_bytes owners.now mem.now) (record { addr = addr; len = 4 })) into.old.items into.new.items result }
{
    let from = into.len();
    read_range(mem, owners, addr, 4, into)?;
    Ok(word(into, from))
}

/// Adds a string, up to its zero. Gives what is left of the most bytes, and none where a byte passes them: it is the last one.
fn add_string(
    mem: &PhysMem,
    owners: &Owners,
    at: u32,
    mut left: u32,
    into: &mut Vec<u8>,
) -> Result<Option<u32>, Unread>
    requires memory { length mem.now ≡ 4096 * length owners.now }
    ensures { ReadsOn (string_from 1048577 (own_bytes owners.now mem.now) at left) into.old.items into.new.items result }
{
    for i in 0..=MOST_STRINGS {
        let byte = add_byte(mem, owners, at.wrapping_add(i), into)?;
        if left == 0 {
            return Ok(None);
        }
        left -= 1;
        if byte == 0 {
            return Ok(Some(left));
        }
    }
    Ok(None)
}

/// Adds a list of strings, each one behind its pointer, up to the pointer that is zero. No list stands at 0.
fn add_list(
    mem: &PhysMem,
    owners: &Owners,
    at: u32,
    mut left: u32,
    into: &mut Vec<u8>,
) -> Result<Option<u32>, Unread>
    requires memory { length mem.now ≡ 4096 * length owners.now }
    ensures { ReadsOn (list_sent (own_bytes owners.now mem.now) at left) into.old.items into.new.items result }
{
    if at == 0 {
        return Ok(Some(left));
    }
    for i in 0..=MOST_STRINGS {
        let pointer = add_word(mem, owners, at.wrapping_add(4 * i), into)?;
        if pointer == 0 {
            return Ok(Some(left));
        }
        if left < 4 {
            return Ok(None);
        }
        let Some(less) = add_string(mem, owners, pointer, left - 4, into)? else {
            return Ok(None);
        };
        left = less;
    }
    Ok(None)
}

/// A zero is among the bytes.
fn has_zero(bytes: &[u8]) -> bool
    ensures { result ≡ has_zero bytes.now }
{
    bytes.contains(&0)
}

/// What an execve reads: its path, and behind one that isn't too long its arguments and its environment.
fn read_exec(
    alloc: Global,
    mem: &PhysMem,
    owners: &Owners,
    path: u32,
    args: u32,
    env: u32,
) -> Result<Vec<u8>, Unread>
    requires memory { length mem.now ≡ 4096 * length owners.now }
    ensures { Reads (exec_sent (own_bytes owners.now mem.now) path args env) result }
{
    let mut bytes = read_path(alloc, mem, owners, path)?;
    if !has_zero(&bytes) {
        return Ok(bytes);
    }
    let Some(left) = add_list(mem, owners, args, MOST_STRINGS, &mut bytes)? else {
        return Ok(bytes);
    };
    add_list(mem, owners, env, left, &mut bytes)?;
    Ok(bytes)
}

/// mkdirat, unlinkat and openat.
fn has_path(number: u32) -> bool
    ensures { result ≡ has_path number }
{
    number == numbers::MKDIRAT || number == numbers::UNLINKAT || number == numbers::OPENAT
}

/// The bytes that the call of this number reads, in the order read.
pub fn read_sent(
    alloc: Global,
    mem: &PhysMem,
    owners: &Owners,
    number: u32,
    args: &[u32; 6],
) -> Result<Vec<u8>, Unread>
    requires memory { length mem.now ≡ 4096 * length owners.now }
    ensures { Reads (sent number args.now (own_bytes owners.now mem.now)) result }
{
    match number {
        numbers::WRITE => read_write(alloc, mem, owners, args[1], args[2]),
        numbers::WRITEV => read_writev(alloc, mem, owners, args[1], args[2]),
        numbers::READV => read_readv(alloc, mem, owners, args[1], args[2]),
        numbers::EXECVE => read_exec(alloc, mem, owners, args[0], args[1], args[2]),
        number if has_path(number) => read_path(alloc, mem, owners, args[1]),
        _ => Ok(Vec::new(alloc)),
    }
}
