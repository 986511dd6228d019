//! llseek.

ghost use Rattle.std.specs.Prelude.{◌≡◌, ◌<◌, ◌≤◌, ◌==◌, if◌then◌else◌, IfOk, MatchOption, MatchResult, Some};
ghost use Rattle.mem_files.specs.Inodes.{size_of};
ghost use Rattle.machine_world.specs.Asks.{Ask, refuses};
ghost use Rattle.machine_world.specs.Descriptors.{position_from, sought, llseek_row};
ghost use Rattle.file_calls.specs.Calls.{MadeBy};
ghost use Rattle.file_calls.specs.Outcomes.{GivesRow, CanTake, HasEnds};

use crate::call::Call;
use crate::outcome::{Outcome, Then};
use call_log::{Errno, Got};
use fd_tables::{Files, Target};
use mem_files::Tree;
use std::alloc::{AllocError, Global};

/// The largest position.
const LARGEST: u64 = 1 << 62;

/// llseek(fd, high, low, p, whence): gives the new position.
pub(crate) fn llseek(
    alloc: Global,
    tree: &Tree,
    files: &Files,
    call: &Call,
) -> Result<Outcome, AllocError>
    ensures gives { IfOk result (GivesRow llseek_row call.now tree.now files.now.open_files) }
    ensures fits { IfOk result (λ o. CanTake files.now.open_files o.then) }
    ensures ends { IfOk result (λ o. HasEnds files.now.open_files call.now.table o.then) }
{
    let at = match sought_at(tree, files, call) {
        Ok(at) => at,
        Err(errno) => return Ok(Outcome::refusal(alloc, errno)),
    };
    let mut got = Vec::new(alloc);
    got.push(Got {
        addr: call.args[3],
        bytes: Vec::from_slice(alloc, &at.to_le_bytes())?,
    })?;
    Ok(Outcome {
        value: 0,
        got,
        then: Then::Move {
            fd: call.args[0],
            at,
        },
    })
}

/// The position that is asked for.
fn sought_at(tree: &Tree, files: &Files, call: &Call) -> Result<u64, Errno>
    ensures { (a : Ask) → MadeBy call.now a → a.rest.tree ≡ tree.now → a.rest.files ≡ files.now.open_files → MatchResult result (λ at. llseek_row a ≡ sought a (Some at)) (λ errno. llseek_row a ≡ refuses a errno) }
{
    let view = files.view(call.table, call.args[0])?;
    let Target::Node(node) = view.target else {
        return Err(Errno::Espipe);
    };
    let Some(base) = base(tree, node, view.at, call.args[4]) else {
        return Err(Errno::Einval);
    };
    let offset = u64::from(call.args[1]) * (1 << 32) + u64::from(call.args[2]);
    match position_from(base, offset) {
        Some(at) => Ok(at),
        None => Err(Errno::Einval),
    }
}

/// Where an offset counts from: the beginning, the position or the size.
fn base(tree: &Tree, node: u32, at: u64, whence: u32) -> Option<u64>
    ensures { MatchOption result (2 < whence) (λ base. (whence ≤ 2) × (base ≡ (if whence == 0 then 0 else if whence == 1 then at else size_of tree.now node))) }
{
    match whence {
        0 => Some(0),
        1 => Some(at),
        2 => Some(u64::from(tree.size(node))),
        _ => None,
    }
}

/// The position at an offset from another one, if it is one. The offset has a sign, in two's complement.
fn position_from(base: u64, offset: u64) -> Option<u64>
    ensures { result ≡ position_from base offset }
{
    let at = if offset < 1 << 63 {
        base.checked_add(offset)?
    } else {
        base.checked_sub(u64::MAX - offset + 1)?
    };
    if at <= LARGEST { Some(at) } else { None }
}
