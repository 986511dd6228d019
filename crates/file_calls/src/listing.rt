//! getdents64.

ghost use Rattle.std.specs.Prelude.{◌≡◌, ◌+◌, ◌^◌, ◌<◌, ◌≤◌, ◌∷◌, IfOk, MatchOption, map, length, drop, slice_index};
ghost use Rattle.call_log.specs.Values.{got_value};
ghost use Rattle.mem_files.specs.Inodes.{kind_of, entries_of};
ghost use Rattle.mem_files.specs.declared.node.Node.TheVariants.{Dir};
ghost use Rattle.mem_files.specs.Seen.{entry_of};
ghost use Rattle.fd_tables.specs.declared.view.View.{View};
ghost use Rattle.machine_world.specs.Asks.{Ask};
ghost use Rattle.machine_world.specs.Descriptors.{record_len, is_short, listing, list_row, got_at, getdents_row};
ghost use Rattle.file_calls.specs.Calls.{MadeBy, Gives};
ghost use Rattle.file_calls.specs.Outcomes.{GivesRow, CanTake, HasEnds, IsMove};
ghost use Rattle.file_calls.specs.Listings.{listing_value, nothing_listed};

use crate::call::Call;
use crate::outcome::{Outcome, Then};
use crate::records::{Listing, push_record, record_len};
use call_log::{Errno, Got};
use fd_tables::{Files, Target};
use mem_files::{Node, Tree};
use std::alloc::{AllocError, Global};

/// getdents64(fd, p, n).
pub(crate) fn getdents64(
    alloc: Global,
    tree: &Tree,
    files: &Files,
    call: &Call,
) -> Result<Outcome, AllocError>
    ensures gives { IfOk result (GivesRow getdents_row call.now tree.now files.now.open_files) }
    ensures fits { IfOk result (λ o. CanTake files.now.open_files o.then) }
    ensures ends { IfOk result (λ o. HasEnds files.now.open_files call.now.table o.then) }
{
    let view = match files.view(call.table, call.args[0]) {
        Ok(view) => view,
        Err(errno) => return Ok(Outcome::refusal(alloc, errno)),
    };
    let Target::Node(node) = view.target else {
        return Ok(Outcome::refusal(alloc, Errno::Enotdir));
    };
    match tree.kind(node) {
        Node::Dir => list(alloc, tree, node, view.at, call),
        Node::File => Ok(Outcome::refusal(alloc, Errno::Enotdir)),
    }
}

/// Lists a folder's entries from a position on: as many whole records as fit. If an entry is left and none fits, EINVAL.
fn list(alloc: Global, tree: &Tree, node: u32, at: u64, call: &Call) -> Result<Outcome, AllocError>
    requires { kind_of tree.now node ≡ Dir }
    ensures gives { IfOk result (λ o. (a : Ask) → MadeBy call.now a → a.rest.tree ≡ tree.now → (v : View) → v.at ≡ at → Gives a (list_row a v (drop at (entries_of tree.now node)) (slice_index call.now.args 2)) o) }
    ensures then { IfOk result (λ o. IsMove o.then) }
{
    let room = call.args[2];
    let from = at.min(u64::from(tree.size(node))) as u32;
    if is_short(tree, node, from, room) {
        return Ok(Outcome::refusal(alloc, Errno::Einval));
    }
    let listing = listing(alloc, tree, node, from, room)?;
    Ok(Outcome {
        value: listing.bytes.len() as u32,
        then: Then::Move {
            fd: call.args[0],
            at: at + u64::from(listing.count),
        },
        got: got_at(alloc, call.args[1], listing.bytes)?,
    })
}

/// Whether an entry is left and its record is longer than the room.
fn is_short(tree: &Tree, node: u32, at: u32, room: u32) -> bool
    ensures { result ≡ is_short room (drop at (entries_of tree.now node)) }
{
    match tree.entry(node, at) {
        Some((name, _)) => record_len(name) > room as usize,
        None => false,
    }
}

/// The records of a folder's entries from a place on, as many as fit.
fn listing(
    alloc: Global,
    tree: &Tree,
    node: u32,
    from: u32,
    room: u32,
) -> Result<Listing, AllocError>
    requires { kind_of tree.now node ≡ Dir }
    ensures fits { IfOk result (λ l. length l.bytes.items < 2 ^ 32) }
    ensures listed { IfOk result (λ l. listing_value l ≡ listing tree.now room from (drop from (entries_of tree.now node))) }
{
    let mut listing = Listing {
        bytes: Vec::new(alloc),
        count: 0,
    };
    let mut room = room as usize;
    for k in from..tree.size(node) {
        let Some((name, id)) = fitting(tree, node, k, room) else {
            return Ok(listing);
        };
        push_record(&mut listing.bytes, tree, u64::from(k) + 1, name, id)?;
        listing.count += 1;
        room -= record_len(name);
    }
    Ok(listing)
}

/// The entry at a place, if its record fits.
fn fitting(tree: &Tree, node: u32, k: u32, room: usize) -> Option<(&[u8], u32)>
    ensures { MatchOption result (listing tree.now room k (drop k (entries_of tree.now node)) ≡ nothing_listed) (λ e. (record_len (length e.0.now) ≤ room) × (drop k (entries_of tree.now node) ≡ entry_of e ∷ drop (k + 1) (entries_of tree.now node))) }
{
    let (name, id) = tree.entry(node, k)?;
    if record_len(name) <= room {
        Some((name, id))
    } else {
        None
    }
}

/// One range of bytes, if there are any.
fn got_at(alloc: Global, addr: u32, bytes: Vec<u8>) -> Result<Vec<Got>, AllocError>
    ensures { IfOk result (λ got. map got_value got.items ≡ got_at addr bytes.items) }
{
    let mut got = Vec::new(alloc);
    if !bytes.is_empty() {
        got.push(Got { addr, bytes })?;
    }
    Ok(got)
}
