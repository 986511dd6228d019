//! Reading a stream to its end, up to a limit.
ghost use Rattle.std.specs.Prelude.{◌≡◌, ◌≤◌, [], length, IfSome, IfOk, OnErr};
ghost use Rattle.host_io.specs.Host.{loads};
ghost use Rattle.host_io.specs.declared.host.Loaded.{Loaded};

use crate::host::{HostError, Loaded};
use std::io::{ErrorKind, Read};

/// Reads what a reader has left into an empty buffer, if it is at most `limit` bytes. In every other
/// case the buffer stays empty. At most one byte past the limit is read.
pub(crate) fn read_at_most<F: Read + Drop>(
    reader: F,
    limit: u32,
    into: &mut Vec<u8>,
) -> Result<Loaded, HostError>
    requires { into.old.items ≡ [] }
    ensures left { IfSome (F.remaining reader)
        (λ left. IfOk result (λ loaded. (loaded, into.new.items) ≡ loads left limit)) }
    ensures limit { length into.new.items ≤ limit }
    ensures too_long { result ≡ Ok Loaded.TooLong → into.new.items ≡ [] }
    ensures err { OnErr result (into.new.items ≡ []) }
{
    let mut bounded = reader.take(u64::from(limit) + 1);
    if let Err(error) = bounded.read_to_end(into) {
        into.clear();
        return Err(error_of(error.kind()));
    }
    if into.len() > limit as usize {
        into.clear();
        return Ok(Loaded::TooLong);
    }
    Ok(Loaded::All)
}

/// Why a read failed: the buffer couldn't grow, or the outside broke off.
fn error_of(kind: ErrorKind) -> HostError {
    match kind {
        ErrorKind::OutOfMemory => HostError::Memory,
        _ => HostError::Failed,
    }
}
