//! read and readv.

ghost use Rattle.std.specs.Prelude.{◌≡◌, ◌+◌, ◌^◌, ◌<◌, ◌≤◌, min, IfOk, map, sum, length, drop, slice_index};
ghost use Rattle.std.specs.List.{range_with_len};
ghost use Rattle.byte_words.specs.Numbers.{low_first, number_at};
ghost use Rattle.call_log.specs.Sent.{most_moved, piece_at};
ghost use Rattle.call_log.specs.Values.{got_value};
ghost use Rattle.mem_files.specs.Inodes.{bytes_of};
ghost use Rattle.fd_tables.specs.Pipes.{pipe_bytes};
ghost use Rattle.machine_world.specs.Transfers.{moved_bytes, scattered, read_into, read_row, readv_row};
ghost use Rattle.file_calls.specs.Calls.{got_of};
ghost use Rattle.file_calls.specs.Outcomes.{GivesUnlessWaits, CanTake, HasEnds, span_of};
ghost use Rattle.file_calls.specs.declared.outcome.Then.TheVariants.{Move, Take, TakePipe};

use crate::call::Call;
use crate::outcome::{Outcome, Then};
use crate::piece::{Piece, may_move};
use call_log::{Errno, Got};
use fd_tables::{Files, Target};
use mem_files::{Node, Tree};
use std::alloc::{AllocError, Global};

/// The most bytes that one call moves.
const MOST_MOVED: u64 = 16_777_216;

/// read(fd, p, n).
pub(crate) fn read(
    alloc: Global,
    tree: &Tree,
    files: &Files,
    call: &Call,
) -> Result<Outcome, AllocError>
    ensures gives { IfOk result (GivesUnlessWaits read_row call.now tree.now files.now.open_files) }
    ensures fits { IfOk result (λ o. CanTake files.now.open_files o.then) }
    ensures ends { IfOk result (λ o. HasEnds files.now.open_files call.now.table o.then) }
{
    let piece = Piece {
        addr: call.args[1],
        len: call.args[2],
    };
    read_into(alloc, tree, files, call, &[piece])
}

/// readv(fd, v, c): the pieces are what the call read.
pub(crate) fn readv(
    alloc: Global,
    tree: &Tree,
    files: &Files,
    call: &Call,
) -> Result<Outcome, AllocError>
    ensures gives { IfOk result (GivesUnlessWaits readv_row call.now tree.now files.now.open_files) }
    ensures fits { IfOk result (λ o. CanTake files.now.open_files o.then) }
    ensures ends { IfOk result (λ o. HasEnds files.now.open_files call.now.table o.then) }
{
    if !may_move(call.args[2]) {
        return Ok(Outcome::refusal(alloc, Errno::Einval));
    }
    let pieces = pieces(alloc, &call.sent, call.args[2])?;
    read_into(alloc, tree, files, call, &pieces)
}

/// So many pieces, each an address and a length.
fn pieces(alloc: Global, bytes: &[u8], count: u32) -> Result<Vec<Piece>, AllocError>
    ensures { IfOk result (λ pieces. map span_of pieces.items ≡ map (piece_at bytes.now) (range_with_len 0 count)) }
{
    let mut pieces = Vec::new(alloc);
    for i in 0..count as usize {
        pieces.push(Piece {
            addr: word_in(bytes, 8 * i),
            len: word_in(bytes, 8 * i + 4),
        })?;
    }
    Ok(pieces)
}

/// The number of four bytes from an offset on, the lowest first; a byte past the end reads as 0.
pub(crate) fn word_in(bytes: &[u8], at: usize) -> u32
    requires { at + 4 < 2 ^ 64 }
    ensures { result ≡ number_at low_first 4 bytes.now at }
{
    u32::from_le_bytes([
        byte_in(bytes, at),
        byte_in(bytes, at + 1),
        byte_in(bytes, at + 2),
        byte_in(bytes, at + 3),
    ])
}

/// The byte at an offset, and 0 past the end.
fn byte_in(bytes: &[u8], at: usize) -> u8
    ensures { result ≡ slice_index bytes.now at }
{
    if at < bytes.len() { bytes[at] } else { 0 }
}

/// Reads as many bytes as are left into the pieces.
fn read_into(
    alloc: Global,
    tree: &Tree,
    files: &Files,
    call: &Call,
    pieces: &[Piece],
) -> Result<Outcome, AllocError>
    ensures gives { IfOk result (GivesUnlessWaits (λ a. read_into a (map span_of pieces.now)) call.now tree.now files.now.open_files) }
    ensures fits { IfOk result (λ o. CanTake files.now.open_files o.then) }
    ensures ends { IfOk result (λ o. HasEnds files.now.open_files call.now.table o.then) }
{
    let view = match files.view(call.table, call.args[0]) {
        Ok(view) => view,
        Err(errno) => return Ok(Outcome::refusal(alloc, errno)),
    };
    if !view.way.read {
        return Ok(Outcome::refusal(alloc, Errno::Ebadf));
    }
    match view.target {
        Target::Console => console_read(alloc, files, pieces),
        Target::Node(node) => match tree.kind(node) {
            Node::Dir => Ok(Outcome::refusal(alloc, Errno::Eisdir)),
            Node::File => file_read(alloc, tree.bytes(node), call.args[0], view.at, pieces),
        },
        Target::Pipe { id, .. } => pipe_read(alloc, files, id, pieces),
    }
}

/// Reads the console's input.
fn console_read(alloc: Global, files: &Files, pieces: &[Piece]) -> Result<Outcome, AllocError>
    ensures value { IfOk result (λ o. o.value ≡ length (moved_bytes (map span_of pieces.now) files.now.open_files.stdin)) }
    ensures got { IfOk result (λ o. got_of o ≡ scattered (moved_bytes (map span_of pieces.now) files.now.open_files.stdin) (map span_of pieces.now)) }
    ensures then { IfOk result (λ o. o.then ≡ Take (length (moved_bytes (map span_of pieces.now) files.now.open_files.stdin))) }
{
    let bytes = moved_bytes(pieces, files.stdin_left());
    let count = bytes.len() as u32;
    Ok(Outcome {
        value: count,
        got: scattered(alloc, bytes, pieces)?,
        then: Then::Take(count),
    })
}

/// Reads from a pipe's front.
fn pipe_read(alloc: Global, files: &Files, id: u32, pieces: &[Piece]) -> Result<Outcome, AllocError>
    ensures value { IfOk result (λ o. o.value ≡ length (moved_bytes (map span_of pieces.now) (pipe_bytes files.now.open_files id))) }
    ensures got { IfOk result (λ o. got_of o ≡ scattered (moved_bytes (map span_of pieces.now) (pipe_bytes files.now.open_files id)) (map span_of pieces.now)) }
    ensures then { IfOk result (λ o. o.then ≡ TakePipe id (length (moved_bytes (map span_of pieces.now) (pipe_bytes files.now.open_files id)))) }
{
    let bytes = files.pipe_front(alloc, id, moved_len(pieces))?;
    let n = bytes.len() as u32;
    Ok(Outcome {
        value: n,
        got: scattered(alloc, &bytes, pieces)?,
        then: Then::TakePipe { id, n },
    })
}

/// Reads a file's bytes from a position on.
fn file_read(
    alloc: Global,
    bytes: &[u8],
    fd: u32,
    at: u64,
    pieces: &[Piece],
) -> Result<Outcome, AllocError>
    ensures value { IfOk result (λ o. o.value ≡ length (moved_bytes (map span_of pieces.now) (drop at bytes.now))) }
    ensures got { IfOk result (λ o. got_of o ≡ scattered (moved_bytes (map span_of pieces.now) (drop at bytes.now)) (map span_of pieces.now)) }
    ensures then { IfOk result (λ o. o.then ≡ Move fd (at + length (moved_bytes (map span_of pieces.now) (drop at bytes.now)))) }
{
    let left = &bytes[at.min(bytes.len() as u64) as usize..];
    let bytes = moved_bytes(pieces, left);
    let count = bytes.len() as u32;
    Ok(Outcome {
        value: count,
        got: scattered(alloc, bytes, pieces)?,
        then: Then::Move {
            fd,
            at: at + u64::from(count),
        },
    })
}

/// The bytes that are moved of those that are left.
fn moved_bytes<'a>(pieces: &[Piece], left: &'a [u8]) -> &'a [u8]
    ensures bytes { result.now ≡ moved_bytes (map span_of pieces.now) left.now }
    ensures few { length result.now ≤ most_moved }
{
    let count = left.len().min(moved_len(pieces));
    &left[..count]
}

/// How many bytes have room.
fn moved_len(pieces: &[Piece]) -> usize
    ensures { result ≡ min (sum (map (λ span. span.len) (map span_of pieces.now))) most_moved }
{
    let mut len = 0;
    for piece in pieces {
        len = (len + u64::from(piece.len)).min(MOST_MOVED);
    }
    len as usize
}

/// Fills bytes into pieces in order.
fn scattered(alloc: Global, bytes: &[u8], pieces: &[Piece]) -> Result<Vec<Got>, AllocError>
    ensures { IfOk result (λ got. map got_value got.items ≡ scattered bytes.now (map span_of pieces.now)) }
{
    let mut got = Vec::new(alloc);
    let mut left = bytes;
    for piece in pieces {
        let (front, back) = left.split_at(left.len().min(piece.len as usize));
        if !front.is_empty() {
            got.push(Got {
                addr: piece.addr,
                bytes: Vec::from_slice(alloc, front)?,
            })?;
        }
        left = back;
    }
    Ok(got)
}
