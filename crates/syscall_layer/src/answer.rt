//! A system call.

ghost use Rattle.std.specs.Prelude.{◌≡◌, ◌==◌, ◌≢◌, ℕ, ◌<◌, ◌^◌, All, IfOk, false, true, List, [], length, slice_index, map, is_some, option_map, Some, Ok, OnErr};
ghost use Rattle.byte_words.specs.declared.access.Access.{Access};
ghost use Rattle.call_log.specs.Numbers as numbers;
ghost use Rattle.call_log.specs.Notes.{weight_of};
ghost use Rattle.call_log.specs.Values.{got_value};
ghost use Rattle.page_runs.specs.Choosers.{IsChooser, kind_of};
ghost use Rattle.mmap_rules.specs.Held.{Held};
ghost use Rattle.vfork_exec.specs.declared.entry.Entry.{Entry};
ghost use Rattle.vfork_exec.specs.Procs.{CanRun, Lives};
ghost use Rattle.mmap_rules.specs.Want.{AsksPages};
ghost use Rattle.mmap_rules.specs.MapState.{map_state, file_in};
ghost use Rattle.mmap_rules.specs.MapState.{mapped as mapped_in};
ghost use Rattle.mem_files.specs.Inodes.{bytes_of};
ghost use Rattle.machine_world.specs.Asks.{Reply, replies, refuses};
ghost use Rattle.machine_world.specs.MapCalls.{mapped};
ghost use Rattle.machine_world.specs.Rows.{row};
ghost use Rattle.machine_world.specs.Event.{room_for, classed, answered, exited, waited, settled};
ghost use Rattle.vfork_exec.specs.declared.family.State.TheVariants.{OnPipe};
ghost use Rattle.file_calls.specs.Calls.{IsChange, IsOutput, DoesNotWait, got_of};
ghost use Rattle.file_calls.specs.Outcomes.{GivesRow};
ghost use Rattle.kept_parts.specs.declared.task.Task.{Task};
ghost use Rattle.kept_parts.specs.Stands.{About, process_of, world_of};
ghost use Rattle.region_watch.specs.Private.{physical};
ghost use Rattle.memory_world.specs.Physical.{outside, has_stray, carried, killed, settled_in, answered_in, classed_in, died_in};
ghost use Rattle.region_watch.specs.declared.mode.Mode.TheVariants.{Halt, GoOn};
ghost use Rattle.kept_parts.specs.declared.served.Served.TheVariants.{Replied, Stray, Ended};
ghost use Rattle.kept_parts.specs.Copies.{HoldsFiles, StillHolds};
ghost use Rattle.kept_parts.specs.InMemory.{headers_of, physical_of, ServesIn};
ghost use Rattle.kept_parts.specs.Leaves.{CanGive};
ghost use Rattle.kept_parts.specs.Reach.{writable};
ghost use Rattle.kept_parts.specs.Serves.{Answered, Serves, Tells, went_by};
ghost use Rattle.call_bytes.specs.Puts.{stray_range, access_at, IsRange};
ghost use Rattle.kept_parts.specs.Regular.{Regular};
ghost use Rattle.kept_parts.specs.Recorded.{room_beside};
ghost use Rattle.kept_parts.specs.MapsIn.{IsWanted};
ghost use Rattle.kept_parts.specs.Brings.{recorded_bytes};
ghost use Rattle.kept_parts.specs.Calls.{LivesIn, Caller, maps_by, asked_by, reply_of, output_reply, served_by};
ghost use Rattle.syscall_layer.specs.Answers.{Answers, AnswersIn, ServesWithin, ToldOf, WaitsAsTold, KeepsMarks};
ghost use Rattle.syscall_layer.specs.ByMode.{HaltServes, GoOnServes, LeavesBehind};
ghost use Rattle.syscall_layer.specs.Parts.{KeepsRun};

use crate::call::call_of;
use crate::classes::{Class, class_of};
use crate::effects::effect_of;
use crate::family::{answer_clone, answer_exec, answer_waitid};
use crate::parts::{Parts, SIGSEGV};
use crate::want::want_of;
use bflt_format::Flat;
use call_bytes::{Unread, got_len, stray_got};
use call_log::{Errno, Got};
use file_calls::{Call, Outcome, output, wait_of};
use kept_parts::{Effect, KeptParts, Served};
use mmap_rules::{Want, fits};
use page_runs::{Chooser, Run};
use phys_mem::PAGE;
use region_watch::Mode;
use rv32im_step::{Access, AccessKind};
use std::alloc::AllocError;

/// What came of a call that was carried out.
fn served_by(effect: Effect) -> Served
    ensures { result ≡ served_by effect }
{
    match effect {
        Effect::Yield => Served::TurnEnds,
        _ => Served::Replied,
    }
}

/// Whether the log has room for a call that gets no bytes, beside all that is recorded.
pub(crate) fn has_room(parts: &KeptParts, call: &Call) -> bool
    ensures room { result ≡ room_beside parts.now (length call.now.sent.items) }
    ensures regular { Regular parts.now }
{
    parts.recording.room(&parts.log, call.sent.len() as u64)
}

/// Whether it has room for a call that gets these.
fn has_room_with(parts: &KeptParts, call: &Call, got: &[Got]) -> bool
    ensures room { result ≡ room_beside parts.now (weight_of call.now.sent.items (map got_value got.now)) }
    ensures regular { Regular parts.now }
{
    let bytes = got_len(got).saturating_add(call.sent.len() as u64);
    parts.recording.room(&parts.log, bytes)
}

/// The bytes that a mapping would bring into the space that is recorded, if it comes about.
fn recorded_len(parts: &KeptParts, pid: u32, want: Want) -> u64
    requires lives { Lives parts.now.procs pid }
    requires pages { AsksPages want }
    ensures { (a : About) → (e : Entry Task) → (h : Held) → LivesIn parts.now pid e h →
        result ≡ recorded_bytes parts.now e.value.space want (is_some (mapped_in (map_state h parts.now.regions parts.now.mem) a.kind (bytes_of parts.now.tree (file_in want)) want)) }
{
    let Want::File { pages, .. } = want else {
        return 0;
    };
    if !parts.recording.has(parts.procs.get(pid).space) || !fits(&parts.regions, want) {
        return 0;
    }
    u64::from(PAGE) * u64::from(pages)
}

/// Whether it has room for an mmap2 with what it would bring.
fn has_room_to_map(parts: &KeptParts, call: &Call, want: Want) -> bool
    requires lives { Lives parts.now.procs call.now.pid }
    requires wanted { IsWanted parts.now.tree call.now want }
    ensures room { (a : About) → (c : Caller parts.now call.now) →
        (reply : Reply) → mapped (asked_by a c) want ≡ replies reply → result ≡ room_for (world_of a parts.now) (asked_by a c) reply }
    ensures alone { result ≡ true → room_beside parts.now (length call.now.sent.items) ≡ true }
{
    let bytes = recorded_len(parts, call.pid, want).saturating_add(call.sent.len() as u64);
    parts.recording.room(&parts.log, bytes)
}

/// Carries out an exit, where the log has room for it.
fn answer_exit(parts: &mut KeptParts, call: Call) -> Result<Served, AllocError>
    requires { CanRun parts.old.procs call.pid }
    ensures serves { (a : About) → (c : Caller parts.old call) →
        Serves a (exited (world_of a parts.old) (asked_by a c)) parts.old parts.new call.pid result }
    ensures memory { parts.new.mem ≡ parts.old.mem }
    ensures holds { HoldsFiles parts.old → HoldsFiles parts.new }
    ensures leaves { IfOk result (Tells parts.old parts.new call.pid) }
{
    if !has_room(parts, &call) {
        return Ok(Served::LogFull);
    }
    parts.exit(call)?;
    Ok(Served::Ended)
}

/// Carries out a call with this effect, which maps no file, where the log has room for it.
pub(crate) fn answer_effect(
    parts: &mut KeptParts,
    call: Call,
    effect: Effect,
) -> Result<Served, AllocError>
    requires lives { Lives parts.old.procs call.pid }
    requires plain { maps_by call effect ≡ false }
    ensures serves { (a : About) → (c : Caller parts.old call) →
        Serves a (answered (world_of a parts.old) (asked_by a c) (replies (reply_of (asked_by a c) effect))) parts.old parts.new call.pid result }
    ensures memory { parts.new.mem ≡ parts.old.mem }
    ensures holds { HoldsFiles parts.old → HoldsFiles parts.new }
    ensures leaves { CanRun parts.old.procs call.pid → IfOk result (Tells parts.old parts.new call.pid) }
{
    if !has_room(parts, &call) {
        return Ok(Served::LogFull);
    }
    parts.reply(call, effect)?;
    Ok(served_by(effect))
}

/// Refuses a call, where the log has room for it.
pub(crate) fn refuse(parts: &mut KeptParts, call: Call, errno: Errno) -> Result<Served, AllocError>
    requires lives { Lives parts.old.procs call.pid }
    ensures serves { (a : About) → (c : Caller parts.old call) →
        Serves a (answered (world_of a parts.old) (asked_by a c) (refuses (asked_by a c) errno)) parts.old parts.new call.pid result }
    ensures memory { parts.new.mem ≡ parts.old.mem }
    ensures holds { HoldsFiles parts.old → HoldsFiles parts.new }
    ensures leaves { CanRun parts.old.procs call.pid → IfOk result (Tells parts.old parts.new call.pid) }
{
    answer_effect(parts, call, Effect::Answer(errno.refusal()))
}

/// Carries out a call that changes files and doesn't wait, where the log has room for it.
fn answer_change(parts: &mut KeptParts, call: Call) -> Result<Served, AllocError>
    requires lives { Lives parts.old.procs call.pid }
    requires change { IsChange call.number }
    requires replies { DoesNotWait call parts.old.files }
    ensures serves { (a : About) → (c : Caller parts.old call) →
        Serves a (answered (world_of a parts.old) (asked_by a c) (row (asked_by a c))) parts.old parts.new call.pid result }
    ensures memory { parts.new.mem ≡ parts.old.mem }
    ensures holds { HoldsFiles parts.old → HoldsFiles parts.new }
    ensures leaves { IfOk result (Tells parts.old parts.new call.pid) }
{
    if !has_room(parts, &call) {
        return Ok(Served::LogFull);
    }
    parts.change(call)?;
    Ok(Served::Replied)
}

/// The first range that the bytes of a call may not be written to.
fn stray_of(parts: &KeptParts, pid: u32, got: &[Got], mode: Mode) -> Option<Access>
    requires lives { Lives parts.now.procs pid }
    requires ranges { All IsRange (map got_value got.now) }
    ensures { (e : Entry Task) → (h : Held) → LivesIn parts.now pid e h →
        result ≡ option_map (access_at e.value.regs.pc) (stray_range (writable mode (length parts.now.regions) h) (map got_value got.now)) }
{
    let task = parts.procs.get(pid);
    let owners = parts.table_of(task.space, mode);
    stray_got(owners, task.regs.pc, got)
}

/// What comes of a call whose bytes go beyond reach: it strays, and nothing is done; or they lie outside memory, and the process ends by
/// SIGSEGV.
fn output_beyond_reach(
    parts: &mut KeptParts,
    pid: u32,
    access: Access,
    mode: Mode,
) -> Result<Served, AllocError>
    requires { CanRun parts.old.procs pid }
    ensures strays { mode ≡ Halt → (result ≡ Ok (Stray access)) × (parts.new ≡ parts.old) }
    ensures silent { result ≢ Ok Replied }
    ensures memory { mode ≡ GoOn → (headers : List (List ℕ)) → (a : About) → (e : Entry Task) → (h : Held) → LivesIn parts.old pid e h →
        ServesIn headers a (killed (physical_of headers a parts.old) (process_of e) outside) parts.old parts.new pid result }
    ensures leaves { IfOk result (Tells parts.old parts.new pid) }
{
    match mode {
        Mode::Halt => Ok(Served::Stray(access)),
        Mode::GoOn => {
            parts.die(pid, SIGSEGV)?;
            Ok(Served::Ended)
        }
    }
}

/// What a call gives, which can be carried out.
fn outcome_of(parts: &KeptParts, call: &Call) -> Result<Outcome, AllocError>
    requires output { IsOutput call.now.number }
    requires replies { DoesNotWait call.now parts.now.files }
    requires room { slice_index call.now.args 2 < 2 ^ 32 }
    ensures gives { IfOk result (GivesRow row call.now parts.now.tree parts.now.files) }
    ensures can { IfOk result (CanGive parts.now.files call.now.table) }
{
    let alloc = *parts.console.allocator();
    output(alloc, &parts.tree, &parts.files, call)
}

/// A call that gives these bytes, where they are within reach and the log has room for them.
pub(crate) fn answer_outcome(
    parts: &mut KeptParts,
    call: Call,
    outcome: Outcome,
    mode: Mode,
) -> Result<Served, AllocError>
    requires ready { CanRun parts.old.procs call.pid }
    requires strayed { mode ≡ GoOn → has_stray parts.old.notes ≡ true }
    requires can { CanGive parts.old.files call.table outcome }
    requires plain { (call.number == numbers.mmap2) ≡ false }
    ensures answers { Answers mode call parts.old parts.new (λ a c. answered (world_of a parts.old) (asked_by a c) (replies (output_reply (asked_by a c) outcome)))
        (λ headers a c. answered_in (physical_of headers a parts.old) (asked_by a c) (replies (output_reply (asked_by a c) outcome))) result }
    ensures lives { result ≡ Ok Replied → Lives parts.new.procs call.pid }
{
    if let Some(access) = stray_of(parts, call.pid, &outcome.got, mode) {
        return output_beyond_reach(parts, call.pid, access, mode);
    }
    if !has_room_with(parts, &call, &outcome.got) {
        return Ok(Served::LogFull);
    }
    parts.give(call, outcome)?;
    Ok(Served::Replied)
}

/// Carries out a call that gives bytes and doesn't wait, where they are within reach and the log has room for them.
fn answer_output(parts: &mut KeptParts, call: Call, mode: Mode) -> Result<Served, AllocError>
    requires ready { CanRun parts.old.procs call.pid }
    requires strayed { mode ≡ GoOn → has_stray parts.old.notes ≡ true }
    requires output { IsOutput call.number }
    requires replies { DoesNotWait call parts.old.files }
    requires room { slice_index call.args 2 < 2 ^ 32 }
    ensures { Answers mode call parts.old parts.new (λ a c. answered (world_of a parts.old) (asked_by a c) (row (asked_by a c)))
        (λ headers a c. answered_in (physical_of headers a parts.old) (asked_by a c) (row (asked_by a c))) result }
{
    let outcome = outcome_of(parts, &call)?;
    answer_outcome(parts, call, outcome, mode)
}

/// Maps what an mmap2 asks for, where the log has room for the call, and for what it would bring where that is recorded.
fn answer_want<F: Fn(&[Run], u32) -> Option<usize>>(
    parts: &mut KeptParts,
    call: Call,
    want: Want,
    chooser: &Chooser<F>,
) -> Result<Served, AllocError>
    requires chooser { IsChooser F.pre F.post chooser.now }
    requires lives { Lives parts.old.procs call.pid }
    requires wanted { IsWanted parts.old.tree call want }
    ensures serves { (a : About) → a.kind ≡ kind_of chooser.now → StillHolds parts.old → (c : Caller parts.old call) →
        Serves a (answered (world_of a parts.old) (asked_by a c) (mapped (asked_by a c) want)) parts.old parts.new call.pid result }
    ensures memory { (headers : List (List ℕ)) → (a : About) → a.kind ≡ kind_of chooser.now → (c : Caller parts.old call) →
        ServesIn headers a (carried (physical_of headers a parts.old) (physical parts.old.mem) (answered (world_of a parts.old) (asked_by a c) (mapped (asked_by a c) want))) parts.old parts.new call.pid result }
    ensures holds { HoldsFiles parts.old → HoldsFiles parts.new }
    ensures leaves { IfOk result (Tells parts.old parts.new call.pid) }
{
    if !has_room_to_map(parts, &call, want) {
        return Ok(Served::LogFull);
    }
    parts.map(call, want, chooser)?;
    Ok(Served::Replied)
}

/// Carries out mmap2.
fn answer_map<F: Fn(&[Run], u32) -> Option<usize>>(
    parts: &mut KeptParts,
    call: Call,
    chooser: &Chooser<F>,
) -> Result<Served, AllocError>
    requires chooser { IsChooser F.pre F.post chooser.now }
    requires lives { Lives parts.old.procs call.pid }
    requires mmap2 { call.number ≡ numbers.mmap2 }
    ensures serves { (a : About) → a.kind ≡ kind_of chooser.now → StillHolds parts.old → (c : Caller parts.old call) →
        Serves a (answered (world_of a parts.old) (asked_by a c) (row (asked_by a c))) parts.old parts.new call.pid result }
    ensures memory { (headers : List (List ℕ)) → (a : About) → a.kind ≡ kind_of chooser.now → (c : Caller parts.old call) →
        ServesIn headers a (carried (physical_of headers a parts.old) (physical parts.old.mem) (answered (world_of a parts.old) (asked_by a c) (row (asked_by a c)))) parts.old parts.new call.pid result }
    ensures holds { HoldsFiles parts.old → HoldsFiles parts.new }
    ensures leaves { CanRun parts.old.procs call.pid → IfOk result (Tells parts.old parts.new call.pid) }
{
    match want_of(&parts.tree, &parts.files, call.table, &call.args) {
        Ok(want) => answer_want(parts, call, want, chooser),
        Err(errno) => refuse(parts, call, errno),
    }
}

/// Carries out munmap, where the log has room for it.
fn answer_unmap(parts: &mut KeptParts, call: Call) -> Result<Served, AllocError>
    requires lives { Lives parts.old.procs call.pid }
    requires munmap { call.number ≡ numbers.munmap }
    ensures serves { (a : About) → (c : Caller parts.old call) →
        Serves a (answered (world_of a parts.old) (asked_by a c) (row (asked_by a c))) parts.old parts.new call.pid result }
    ensures memory { parts.new.mem ≡ parts.old.mem }
    ensures holds { HoldsFiles parts.old → HoldsFiles parts.new }
    ensures leaves { IfOk result (Tells parts.old parts.new call.pid) }
{
    if !has_room(parts, &call) {
        return Ok(Served::LogFull);
    }
    parts.unmap(call)?;
    Ok(Served::Replied)
}

/// The process of a call waits on a pipe, without a note.
fn answer_wait(parts: &mut KeptParts, call: &Call, pipe: u32) -> Served
    requires { CanRun parts.old.procs call.now.pid }
    ensures waits { (a : About) → (c : Caller parts.old call.now) →
        Answered a (waited (world_of a parts.old) (process_of c.entry) (OnPipe pipe)) parts.old parts.new call.now.pid result }
    ensures memory { parts.new.mem ≡ parts.old.mem }
    ensures holds { HoldsFiles parts.old → HoldsFiles parts.new }
    ensures leaves { Tells parts.old parts.new call.now.pid result }
{
    parts.procs.wait_on(call.pid, pipe);
    Served::Waits
}

/// Carries out a call that is read.
fn answer<F: Fn(&[Run], u32) -> Option<usize>>(
    parts: &mut KeptParts,
    call: Call,
    programs: &[Flat],
    chooser: &Chooser<F>,
    mode: Mode,
) -> Result<Served, AllocError>
    requires chooser { IsChooser F.pre F.post chooser.now }
    requires ready { CanRun parts.old.procs call.pid }
    requires strayed { mode ≡ GoOn → has_stray parts.old.notes ≡ true }
    requires room { slice_index call.args 2 < 2 ^ 32 }
    ensures answers { AnswersIn mode (kind_of chooser.now) programs.now call parts.old parts.new (λ a c. classed (world_of a parts.old) (asked_by a c))
        (λ a c. classed_in (physical_of (headers_of programs.now) a parts.old) (asked_by a c)) result }
    ensures leaves { IfOk result (Tells parts.old parts.new call.pid) }
{
    if let Some(pipe) = wait_of(&parts.files, &call) {
        return Ok(answer_wait(parts, &call, pipe));
    }
    match class_of(call.number) {
        Class::Exit => answer_exit(parts, call),
        Class::Change => answer_change(parts, call),
        Class::Output => answer_output(parts, call, mode),
        Class::Waitid => answer_waitid(parts, call, mode),
        Class::Munmap => answer_unmap(parts, call),
        Class::Clone => answer_clone(parts, call),
        Class::Execve => answer_exec(parts, call, programs, chooser),
        Class::Mmap2 => answer_map(parts, call, chooser),
        Class::Effect => {
            let effect = effect_of(&call, &parts.files);
            answer_effect(parts, call, effect)
        }
    }
}

/// Whether it was an event: what it changed stays.
fn went(served: Served) -> bool
    ensures { result ≡ went_by served }
{
    match served {
        Served::Replied | Served::TurnEnds | Served::Waits | Served::Ended => true,
        Served::Stray(_) | Served::LogFull => false,
    }
}

/// Carries out a call that is read. Those go on that wait on a pipe which it changed.
fn answer_and_wake<F: Fn(&[Run], u32) -> Option<usize>>(
    parts: &mut KeptParts,
    call: Call,
    programs: &[Flat],
    chooser: &Chooser<F>,
    mode: Mode,
) -> Result<Served, AllocError>
    requires chooser { IsChooser F.pre F.post chooser.now }
    requires ready { CanRun parts.old.procs call.pid }
    requires strayed { mode ≡ GoOn → has_stray parts.old.notes ≡ true }
    requires room { slice_index call.args 2 < 2 ^ 32 }
    ensures answers { AnswersIn mode (kind_of chooser.now) programs.now call parts.old parts.new (λ a c. settled (classed (world_of a parts.old) (asked_by a c)))
        (λ a c. settled_in (classed_in (physical_of (headers_of programs.now) a parts.old) (asked_by a c))) result }
    ensures told { ToldOf call.pid parts.old parts.new result }
{
    let served = answer(parts, call, programs, chooser, mode)?;
    if went(served) {
        parts.wake_changed();
    }
    Ok(served)
}

/// What comes of an event whose access goes beyond reach: it strays, and nothing is done; or it lies outside memory, and ends its process
/// by SIGSEGV. Those go on that wait on a pipe of which an end closes.
pub(crate) fn beyond_reach(
    parts: &mut KeptParts,
    pid: u32,
    access: Access,
    mode: Mode,
) -> Result<Served, AllocError>
    requires { CanRun parts.old.procs pid }
    ensures strays { mode ≡ Halt → (result ≡ Ok (Stray access)) × (parts.new ≡ parts.old) }
    ensures memory { mode ≡ GoOn → (headers : List (List ℕ)) → (a : About) →
        ServesIn headers a (died_in (physical_of headers a parts.old) pid outside) parts.old parts.new pid result }
    ensures ends { mode ≡ GoOn → IfOk result (λ served. served ≡ Ended) }
    ensures leaves { IfOk result (Tells parts.old parts.new pid) }
    ensures keeps { KeepsMarks parts.old parts.new }
    ensures unchanged { OnErr result (parts.new ≡ parts.old) }
{
    match mode {
        Mode::Halt => Ok(Served::Stray(access)),
        Mode::GoOn => {
            parts.end_by_signal(pid, SIGSEGV)?;
            Ok(Served::Ended)
        }
    }
}

/// Carries out the system call that a process stands at, which may run, where its accesses are watched in this mode; those go on that wait on a pipe which it
/// changed. A run of pages that it needs is the chooser's, and the programs that it may run are these. A range beyond its process's own
/// bytes strays, and nothing is done; one outside memory ends the process by SIGSEGV.
fn serve_within<F: Fn(&[Run], u32) -> Option<usize>>(
    parts: &mut KeptParts,
    pid: u32,
    programs: &[Flat],
    chooser: &Chooser<F>,
    mode: Mode,
) -> Result<Served, AllocError>
    requires chooser { IsChooser F.pre F.post chooser.now }
    requires ready { CanRun parts.old.procs pid }
    requires strayed { mode ≡ GoOn → has_stray parts.old.notes ≡ true }
    ensures comes { ServesWithin mode (kind_of chooser.now) programs.now pid parts.old parts.new result }
    ensures told { ToldOf pid parts.old parts.new result }
    ensures keeps { KeepsMarks parts.old parts.new }
    ensures unchanged { OnErr result (parts.new ≡ parts.old) }
{
    match call_of(parts, pid, mode) {
        Ok(call) => answer_and_wake(parts, call, programs, chooser, mode),
        Err(Unread::Stray { addr, len }) => {
            let access = Access {
                pc: parts.procs.get(pid).regs.pc,
                addr,
                len,
                kind: AccessKind::Call,
            };
            beyond_reach(parts, pid, access, mode)
        }
        Err(Unread::Memory) => Err(AllocError),
    }
}

/// Carries out the system call that a process stands at over all of memory, behind the note of a stray access.
fn serve_whole<F: Fn(&[Run], u32) -> Option<usize>>(
    parts: &mut Parts,
    pid: u32,
    chooser: &Chooser<F>,
) -> Result<Served, AllocError>
    requires chooser { IsChooser F.pre F.post chooser.now }
    requires ready { CanRun parts.old.kept.procs pid }
    requires strayed { has_stray parts.old.kept.notes ≡ true }
    ensures keeps { KeepsRun parts.old parts.new }
    ensures behind { LeavesBehind (kind_of chooser.now) pid parts.old parts.new result }
    ensures unchanged { OnErr result (parts.new ≡ parts.old) }
    ensures told { WaitsAsTold pid parts.new.kept result }
{
    serve_within(&mut parts.kept, pid, &parts.programs, chooser, Mode::GoOn)
}

/// The mode in which the accesses of a call are watched. In a run that ends at its first stray access that is within its process's own
/// bytes, whatever was noted; in one that goes on it is the run's of that moment.
fn call_mode(mode: Mode, watch: Mode) -> Mode
    ensures halts { mode ≡ Halt → result ≡ Halt }
    ensures goes_on { mode ≡ GoOn → result ≡ watch }
{
    match mode {
        Mode::Halt => Mode::Halt,
        Mode::GoOn => watch,
    }
}

/// Carries out the system call that a process stands at, which may run. In a run that ends at its first stray access it reads and writes
/// its process's own bytes alone, whatever was noted; a range that strays is answered, and nothing is done. In a run that goes on the
/// first such range is noted, before the call's own note, and from there on calls reach all of memory; a range outside memory ends the
/// process by SIGSEGV. That note stands also where the log has no room for the call. Out of memory nothing changed.
pub fn serve<F: Fn(&[Run], u32) -> Option<usize>>(
    parts: &mut Parts,
    pid: u32,
    chooser: &Chooser<F>,
) -> Result<Served, AllocError>
    requires chooser { IsChooser F.pre F.post chooser.now }
    requires ready { CanRun parts.old.kept.procs pid }
    ensures keeps { KeepsRun parts.old parts.new }
    ensures halts { parts.old.mode ≡ Halt → HaltServes (kind_of chooser.now) pid parts.old parts.new result }
    ensures goes_on { parts.old.mode ≡ GoOn → GoOnServes (kind_of chooser.now) pid parts.old parts.new result }
    ensures unchanged { OnErr result (parts.new ≡ parts.old) }
    ensures told { WaitsAsTold pid parts.new.kept result }
{
    let within = call_mode(parts.mode, parts.watch_mode());
    let served = serve_within(&mut parts.kept, pid, &parts.programs, chooser, within)?;
    let Served::Stray(access) = served else {
        return Ok(served);
    };
    match parts.mode {
        Mode::Halt => Ok(served),
        Mode::GoOn => parts.behind_note(pid, access, &mut (), |parts, _| {
            serve_whole(parts, pid, chooser)
        }),
    }
}
