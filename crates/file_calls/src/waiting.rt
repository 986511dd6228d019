//! Which calls wait on a pipe.

ghost use Rattle.std.specs.Prelude.{◌≡◌, ◌≤◌, ◌==◌, not, ◌&&◌, nat_lt, List, length, map, slice_index, IfSome};
ghost use Rattle.std.specs.List.{range_with_len};
ghost use Rattle.call_log.specs.Sent.{Span, piece_at};
ghost use Rattle.machine_world.specs.Asks.{Ask};
ghost use Rattle.machine_world.specs.Rows.{row};
ghost use Rattle.machine_world.specs.Transfers.{read_into, write_row, write_waits, room_of};
ghost use Rattle.fd_tables.specs.Files.{view};
ghost use Rattle.fd_tables.specs.Pipes.{most_held};
ghost use Rattle.file_calls.specs.Calls.{MadeBy, WaitsOn};
ghost use Rattle.file_calls.specs.Ends.{shown_end};

use crate::call::Call;
use crate::piece::may_move;
use crate::reading::word_in;
use crate::writing::{behind_pieces, must_wait};
use call_log::numbers;
use fd_tables::{Files, PipeView, Target, Way};

/// An end of a pipe, as a descriptor shows it.
#[derive(Clone, Copy)]
struct PipeEnd {
    way: Way,
    id: u32,
    pipe: PipeView,
}

impl PipeEnd {
    /// A read with room waits where the pipe is empty and its writing end is open.
    fn stops_read(self, has_room: bool) -> bool
        ensures { result ≡ (self.way.read && (has_room && (self.pipe.held == 0 && self.pipe.write_open))) }
    {
        self.way.read && has_room && self.pipe.held == 0 && self.pipe.write_open
    }

    /// A write of so many bytes waits where it must be whole and has no room, and where there is no room at all.
    fn stops_write(self, count: usize) -> bool
        requires { self.pipe.held ≤ most_held }
        ensures { result ≡ (self.way.write && (not (count == 0) && (self.pipe.read_open && write_waits count self.pipe))) }
    {
        self.way.write && count > 0 && self.pipe.read_open && must_wait(self.pipe, count)
    }
}

/// The pipe on which a call waits, if it does. Only read, write, readv and writev may.
pub fn wait_of(files: &Files, call: &Call) -> Option<u32>
    ensures { (a : Ask) → MadeBy call.now a → a.rest.files ≡ files.now.open_files → WaitsOn (row a) result }
{
    let count = call.args[2];
    match call.number {
        numbers::READ => read_wait(files, call, count > 0),
        numbers::WRITE => write_wait(files, call, &call.sent),
        numbers::READV if may_move(count) => read_wait(files, call, have_room(&call.sent, count)),
        numbers::WRITEV if may_move(count) => write_wait(
            files,
            call,
            behind_pieces(&call.sent, count),
        ),
        _ => None,
    }
}

/// Whether one of so many pieces, each an address and a length, isn't empty.
fn have_room(sent: &[u8], count: u32) -> bool
    ensures { result ≡ nat_lt 0 (room_of (map (piece_at sent.now) (range_with_len 0 count))) }
{
    for i in 0..count as usize {
        if word_in(sent, 8 * i + 4) > 0 {
            return true;
        }
    }
    false
}

/// What the call's first argument shows, if it is an end of a pipe.
fn pipe_end(files: &Files, call: &Call) -> Option<PipeEnd>
    ensures shown { result ≡ shown_end files.now.open_files (view files.now.open_files call.now.table (slice_index call.now.args 0)) }
    ensures most { IfSome result (λ end. end.pipe.held ≤ most_held) }
{
    let Ok(view) = files.view(call.table, call.args[0]) else {
        return None;
    };
    match view.target {
        Target::Pipe { id, .. } => Some(PipeEnd {
            way: view.way,
            id,
            pipe: files.pipe_view(id),
        }),
        Target::Console | Target::Node(_) => None,
    }
}

/// The pipe on which a read waits.
fn read_wait(files: &Files, call: &Call, has_room: bool) -> Option<u32>
    ensures { (a : Ask) → (spans : List Span) → MadeBy call.now a → a.rest.files ≡ files.now.open_files → has_room ≡ nat_lt 0 (room_of spans) → WaitsOn (read_into a spans) result }
{
    let end = pipe_end(files, call)?;
    if end.stops_read(has_room) {
        Some(end.id)
    } else {
        None
    }
}

/// The pipe on which a write of these bytes waits.
fn write_wait(files: &Files, call: &Call, bytes: &[u8]) -> Option<u32>
    ensures { (a : Ask) → MadeBy call.now a → a.rest.files ≡ files.now.open_files → WaitsOn (write_row a bytes.now) result }
{
    let end = pipe_end(files, call)?;
    if end.stops_write(bytes.len()) {
        Some(end.id)
    } else {
        None
    }
}
