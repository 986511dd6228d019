//! pipe2.

ghost use Rattle.std.specs.Prelude.{◌≡◌, IfOk};
ghost use Rattle.mem_files.specs.Inodes.{Inodes};
ghost use Rattle.machine_world.specs.Descriptors.{pipe2_row, ends_bytes};
ghost use Rattle.file_calls.specs.Outcomes.{GivesRow, CanTake, HasEnds};

use crate::call::Call;
use crate::flags::{O_CLOEXEC, is_none_or};
use crate::outcome::{Outcome, Then};
use call_log::{Errno, Got};
use fd_tables::{Ends, Files};
use std::alloc::{AllocError, Global};

/// pipe2(p, flags): both descriptors go to p, the reading end's first.
pub(crate) fn pipe2(alloc: Global, files: &Files, call: &Call) -> Result<Outcome, AllocError>
    ensures gives { IfOk result (λ o. (tree : Inodes) → GivesRow pipe2_row call.now tree files.now.open_files o) }
    ensures fits { IfOk result (λ o. CanTake files.now.open_files o.then) }
    ensures ends { IfOk result (λ o. HasEnds files.now.open_files call.now.table o.then) }
{
    let [at, flags, ..] = call.args;
    if !is_none_or(flags, O_CLOEXEC) {
        return Ok(Outcome::refusal(alloc, Errno::Einval));
    }
    let Some(ends) = files.two_free(call.table) else {
        return Ok(Outcome::refusal(alloc, Errno::Emfile));
    };
    let mut got = Vec::new(alloc);
    got.push(Got {
        addr: at,
        bytes: ends_bytes(alloc, ends)?,
    })?;
    Ok(Outcome {
        value: 0,
        got,
        then: Then::MakePipe {
            ends,
            cloexec: flags == O_CLOEXEC,
        },
    })
}

/// Both descriptors, each in four bytes, the lowest first.
fn ends_bytes(alloc: Global, ends: Ends) -> Result<Vec<u8>, AllocError>
    ensures { IfOk result (λ bytes. bytes.items ≡ ends_bytes ends) }
{
    let mut bytes = Vec::with_capacity(alloc, 8)?;
    bytes.extend_from_slice(&ends.read.to_le_bytes())?;
    bytes.extend_from_slice(&ends.write.to_le_bytes())?;
    Ok(bytes)
}
