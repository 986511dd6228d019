//! The verdict on the items of a replay, and why there is none.
ghost use Rattle.std.specs.Prelude.{◌≡◌, IfOk, IsErr, string_bytes};
ghost use Rattle.file_commands.specs.Texts.{refused_line};
ghost use Rattle.file_commands.specs.Texts.Replays.{yes_line, no_line, items_tail, replay_tail};

use crate::texts::{refused, refused_conversion};
use replay_check::ReplayFault;
use std::alloc::{AllocError, Global};

/// The line of items that are a run of the program: their number, and that of the events.
pub fn yes_line(alloc: Global, items: usize, events: u64) -> Result<String, AllocError>
    ensures { IfOk result (λ line. string_bytes line ≡ yes_line items events) }
{
    format!(in alloc; "replay yes items {items} events {events}\n")
}

/// The line of items that aren't: the item at which it is seen, from 1, and the events before.
pub fn no_line(alloc: Global, item: u64, events: u64) -> Result<String, AllocError>
    ensures { IfOk result (λ line. string_bytes line ≡ no_line item events) }
{
    format!(in alloc; "replay no item {item} after {events} events\n")
}

fn items_tail(alloc: Global, line: u32) -> Result<String, AllocError>
    ensures { IfOk result (λ tail. string_bytes tail ≡ items_tail line) }
{
    format!(in alloc; "items line {line}")
}

/// The line for a text of items in which this line isn't as it has to be.
pub fn refused_items(alloc: Global, line: u32) -> Result<String, AllocError>
    ensures { IfOk result (λ text. string_bytes text ≡ refused_line (items_tail line)) }
{
    let tail = items_tail(alloc, line)?;
    refused(alloc, &tail)
}

/// The line for a program that isn't replayed. Out of memory has no such line.
pub fn refused_replay(alloc: Global, fault: &ReplayFault) -> Result<String, AllocError>
    ensures line { IfOk result (λ line. string_bytes line ≡ refused_line (replay_tail fault.now)) }
    ensures no_line { fault.now ≡ ReplayFault.Memory → IsErr result }
{
    match fault {
        ReplayFault::Original(refusal) => refused_conversion(alloc, refusal),
        ReplayFault::Stack => refused(alloc, "stack"),
        ReplayFault::Args => refused(alloc, "args"),
        ReplayFault::Base => refused(alloc, "base"),
        ReplayFault::Memory => Err(AllocError),
    }
}
