//! The reply of a system call after which its process lives.

ghost use Rattle.std.specs.Prelude.{◌≡◌, ◌==◌, ◌-◌, ◌≤◌, ◌∷◌, Some, false, true, length, map, slice_get, slice_set};
ghost use Rattle.call_log.specs.Notes.{has_room, weight_of};
ghost use Rattle.call_log.specs.Numbers as numbers;
ghost use Rattle.call_log.specs.Values.{got_value};
ghost use Rattle.mmap_rules.specs.Held.{Held, next_brk};
ghost use Rattle.vfork_exec.specs.declared.entry.Entry.{Entry as Listed};
ghost use Rattle.vfork_exec.specs.Procs.{Lives, value_at, with_value_at};
ghost use Rattle.machine_world.specs.Rows.{row};
ghost use Rattle.machine_world.specs.Event.{replied};
ghost use Rattle.file_calls.specs.Calls.{IsChange, DoesNotWait, got_of};
ghost use Rattle.kept_parts.specs.declared.task.Task.{Task};
ghost use Rattle.kept_parts.specs.Copies.{HoldsFiles};
ghost use Rattle.kept_parts.specs.Leaves.{CanGive, GivesWithin, GiveLeaves};
ghost use Rattle.kept_parts.specs.Regular.{HasSpace};
ghost use Rattle.kept_parts.specs.Stands.{About};
ghost use Rattle.kept_parts.specs.Recorded.{room_beside};
ghost use Rattle.kept_parts.specs.Calls.{LivesIn, Caller, asked_by, maps_by, value_of, brk_of, noted_call, RepliesBy, ChangesParts};

use crate::effect::Effect;
use crate::follow::follow;
use crate::home::home;
use crate::keep::{note_call, or_unreserve};
use crate::kept::KeptParts;
use crate::task::Task;
use call_bytes::put;
use call_log::{Got, Log};
use file_calls::{Call, Outcome};
use mmap_rules::Space;
use rv32im_step::Regs;
use std::alloc::AllocError;
use vfork_exec::Procs;

/// The reply goes to a0, and the instruction after the call follows.
#[tactic(auto, unfolding(rv32im_step::specs::Registers::with_register))]
pub(crate) fn set_reply(regs: &mut Regs, value: u32)
    ensures { regs.new ≡ replied regs.old value }
{
    regs.x[10] = value;
    regs.pc = regs.pc.wrapping_add(4);
}

/// Moves the break of a space that lives, if it may go there, and gives it as it is then.
fn move_break(spaces: &mut [Option<Space>], number: u32, to: u32) -> u32
    requires { HasSpace spaces.old number }
    ensures { (h : Held) → slice_get spaces.old number ≡ Some (Some h) →
        (result ≡ next_brk h to) × (spaces.new ≡ slice_set spaces.old number (Some (record h { brk = next_brk h to }))) }
{
    match &mut spaces[number as usize] {
        Some(space) => space.brk(to),
        None => unreachable!(),
    }
}

/// The reply of a call. The break moves, if it is asked to.
fn settle(spaces: &mut [Option<Space>], number: u32, effect: Effect) -> u32
    requires { HasSpace spaces.old number }
    ensures { (h : Held) → slice_get spaces.old number ≡ Some (Some h) →
        (result ≡ value_of (next_brk h) effect) × (spaces.new ≡ slice_set spaces.old number (Some (record h { brk = brk_of (next_brk h) h.brk effect }))) }
{
    match effect {
        Effect::Answer(value) => value,
        Effect::Yield => 0,
        Effect::Break(to) => move_break(spaces, number, to),
    }
}

/// A call has its reply, and is noted. There is room and memory for its note.
pub(crate) fn finish(procs: &mut Procs<Task>, log: &mut Log, call: Call, value: u32, got: Vec<Got>)
    requires lives { Lives procs.old call.pid }
    requires spare { 1 ≤ log.old.spare }
    requires room { has_room log.old.notes (weight_of call.sent.items (map got_value got.items)) ≡ true }
    ensures procs { (t : Task) → value_at procs.old call.pid ≡ Some t → procs.new ≡ with_value_at procs.old call.pid (record t { regs = replied t.regs value }) }
    ensures notes { log.new.notes ≡ noted_call call value (map got_value got.items) ∷ log.old.notes }
    ensures spare { log.new.spare ≡ log.old.spare - 1 }
{
    let task = procs.get_mut(call.pid);
    set_reply(&mut task.regs, value);
    note_call(log, call, value, got);
}

impl KeptParts {
    /// Gives a call its reply, and notes it. There is room for its note, and it maps no file.
    pub fn reply(&mut self, call: Call, effect: Effect) -> Result<(), AllocError>
        requires lives { Lives self.old.procs call.pid }
        requires room { room_beside self.old (length call.sent.items) ≡ true }
        requires plain { maps_by call effect ≡ false }
        ensures replies { (a : About) → (e : Listed Task) → (h : Held) → LivesIn self.old call.pid e h → RepliesBy a self.old e h call effect self.new result }
        ensures memory { self.new.mem ≡ self.old.mem }
        ensures holds { HoldsFiles self.old → HoldsFiles self.new }
    {
        self.log.reserve(1)?;
        let got = Vec::new(*self.console.allocator());
        let number = self.procs.get(call.pid).space;
        let value = settle(&mut self.spaces, number, effect);
        self.recording.pass(number, 1);
        finish(&mut self.procs, &mut self.log, call, value, got);
        Ok(())
    }

    /// Carries out a call that changes files and doesn't wait, and notes it. There is room for its note.
    pub fn change(&mut self, call: Call) -> Result<(), AllocError>
        requires lives { Lives self.old.procs call.pid }
        requires room { room_beside self.old (length call.sent.items) ≡ true }
        requires change { IsChange call.number }
        requires replies { DoesNotWait call self.old.files }
        ensures changes { (a : About) → (c : Caller self.old call) → ChangesParts a self.old c.entry c.held call (row (asked_by a c)) self.new result }
        ensures memory { self.new.mem ≡ self.old.mem }
        ensures holds { HoldsFiles self.old → HoldsFiles self.new }
    {
        self.log.reserve(1)?;
        let changed = file_calls::change(&mut self.tree, &mut self.files, &mut self.console, &call);
        let value = or_unreserve(&mut self.log, changed)?;
        let got = Vec::new(*self.console.allocator());
        self.recording.pass(self.procs.get(call.pid).space, 1);
        finish(&mut self.procs, &mut self.log, call, value, got);
        Ok(())
    }

    /// Gives a call its reply and its bytes, which all lie in memory, and notes it. There is room for its note, and it is no mmap2.
    pub fn give(&mut self, call: Call, outcome: Outcome) -> Result<(), AllocError>
        requires lives { Lives self.old.procs call.pid }
        requires room { room_beside self.old (weight_of call.sent.items (got_of outcome)) ≡ true }
        requires plain { (call.number == numbers.mmap2) ≡ false }
        requires can { CanGive self.old.files call.table outcome }
        requires within { GivesWithin self.old call.pid (got_of outcome) }
        ensures leaves { GiveLeaves call outcome self.old self.new result }
        ensures lives { Lives self.new.procs call.pid }
    {
        self.log.reserve(1)?;
        let followed = follow(&mut self.files, call.table, outcome.then);
        or_unreserve(&mut self.log, followed)?;
        put(&mut self.mem, &outcome.got);
        self.recording.pass(self.procs.get(call.pid).space, 1);
        finish(
            &mut self.procs,
            &mut self.log,
            call,
            outcome.value,
            outcome.got,
        );
        Ok(())
    }
}
