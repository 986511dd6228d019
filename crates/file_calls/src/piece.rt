//! Parts of a process's memory, of which a call may have many.

ghost use Rattle.std.specs.Prelude.{◌≡◌, ◌<◌, ◌≤◌, false, true};

/// The most pieces of one call.
const MOST_PIECES: u32 = 1024;

/// Where bytes go, and how many have room there.
#[derive(Clone, Copy)]
pub(crate) struct Piece {
    pub(crate) addr: u32,
    pub(crate) len: u32,
}

/// Whether a call may have so many pieces.
pub(crate) fn may_move(count: u32) -> bool
    ensures few { result ≡ true → count ≤ 1024 }
    ensures many { result ≡ false → 1024 < count }
{
    count <= MOST_PIECES
}
