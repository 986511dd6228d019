//! The replay of a program by the items of its space.

ghost use Rattle.std.specs.Prelude.{◌≡◌, ◌≤◌, false, true, not, ◌||◌, nat_lt, IfOk};
ghost use Rattle.flat_loader.specs.Original.{flat_original};
ghost use Rattle.items_text.specs.Items.{AreSpelled};
ghost use Rattle.items_text.specs.Values.{items_value};
ghost use Rattle.replay_check.specs.Replays.{original_value, placed_verdict, replayed, Replays, JudgesRun};

use crate::fault::{ReplayFault, refused};
use crate::lone::Lone;
use crate::memory::MEMORY_END;
use crate::original::Original;
use crate::replaying::replay_all;
use crate::verdict::Verdict;
use bflt_format::Flat;
use flat_loader::{block_len, frame_fits};
use items_text::Items;
use originals::elf_program;
use std::alloc::Global;

/// The bytes of stack that an ELF file's program can have.
const LEAST_STACK: u32 = 16;

const MOST_STACK: u32 = 1_048_576;

/// Whether an ELF file's program can have so many bytes of stack.
fn is_stack(stack: u32) -> bool
    ensures { result ≡ not (nat_lt stack 16 || nat_lt 1048576 stack) }
{
    !(stack < LEAST_STACK || stack > MOST_STACK)
}

/// So many bytes of stack if a program can have them, or the least that one can have.
fn some_stack(stack: u32) -> u32
    ensures least { 16 ≤ result }
    ensures most { result ≤ 1048576 }
    ensures same { (nat_lt stack 16 || nat_lt 1048576 stack) ≡ false → result ≡ stack }
    ensures other { (nat_lt stack 16 || nat_lt 1048576 stack) ≡ true → result ≡ 16 }
{
    if is_stack(stack) { stack } else { LEAST_STACK }
}

/// The program of a flat file, by itself.
fn replay_flat(alloc: Global, flat: &Flat, items: &Items) -> Result<Verdict, ReplayFault>
    requires { AreSpelled (items_value items.now) }
    ensures { Replays (placed_verdict (flat_original flat.now) (items_value items.now)) result }
{
    if !frame_fits(flat, &items.args, &items.env) {
        return Err(ReplayFault::Args);
    }
    if u64::from(items.base) + u64::from(block_len(flat)) > MEMORY_END {
        return Err(ReplayFault::Base);
    }
    let mut lone = Lone::begin(alloc, flat, items.base, items.pid, &items.args, &items.env)?;
    Ok(replay_all(&mut lone, alloc, &items.list, items.events)?)
}

/// Whether the items are a run of this program by itself, loaded at their base with their strings. It takes as long as their
/// events, their bytes, and for each call the ranges that its space has.
///
/// # Errors
///
/// The first fault, in the order of the variants of `ReplayFault`, or `Memory`.
pub fn replay(alloc: Global, original: &Original<'_>, items: &Items) -> Result<Verdict, ReplayFault>
    requires { AreSpelled (items_value items.now) }
    ensures replays { Replays (replayed (original_value original.now) (items_value items.now)) result }
    ensures judges { IfOk result (JudgesRun (original_value original.now) (items_value items.now)) }
{
    match original {
        Original::Elf { bytes } => {
            let flat = match elf_program(alloc, bytes, some_stack(items.stack)) {
                Ok(flat) => flat,
                Err(refusal) => return Err(refused(refusal)),
            };
            if !is_stack(items.stack) {
                return Err(ReplayFault::Stack);
            }
            replay_flat(alloc, &flat, items)
        }
        Original::Flat { flat } => replay_flat(alloc, flat, items),
    }
}
