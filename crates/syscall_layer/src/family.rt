//! waitid, clone and execve (Linux, wait(2), vfork(2), execve(2), in this project's profile).

ghost use Rattle.std.specs.Prelude.{◌≡◌, ℕ, false, true, IfOk, List, Ok, flat_map};
ghost use Rattle.byteorder.specs.Endian.{little_bytes};
ghost use Rattle.call_log.specs.Numbers as numbers;
ghost use Rattle.page_runs.specs.Choosers.{IsChooser, kind_of};
ghost use Rattle.vfork_exec.specs.Procs.{CanRun};
ghost use Rattle.vfork_exec.specs.Procs.{looked};
ghost use Rattle.mem_files.specs.Paths.{lookup};
ghost use Rattle.machine_world.specs.Asks.{Ask};
ghost use Rattle.machine_world.specs.FamilyCalls.{who_of, waitid_fault, info_at};
ghost use Rattle.machine_world.specs.Event.{waitid, reaped, cloned, exec};
ghost use Rattle.file_calls.specs.Calls.{got_of};
ghost use Rattle.file_calls.specs.declared.outcome.Then.TheVariants.{Nothing};
ghost use Rattle.kept_parts.specs.Families.{info_of, mark_at};
ghost use Rattle.kept_parts.specs.Stands.{About, world_of};
ghost use Rattle.region_watch.specs.Private.{physical};
ghost use Rattle.memory_world.specs.Physical.{has_stray, carried, reaped_in, waitid_in};
ghost use Rattle.region_watch.specs.declared.mode.Mode.TheVariants.{GoOn};
ghost use Rattle.kept_parts.specs.InMemory.{headers_of, physical_of, ServesIn};
ghost use Rattle.kept_parts.specs.Copies.{HoldsFiles};
ghost use Rattle.kept_parts.specs.Serves.{Serves, Tells};
ghost use Rattle.kept_parts.specs.Flats.{ForRuns};
ghost use Rattle.kept_parts.specs.Calls.{Caller, asked_by};
ghost use Rattle.syscall_layer.specs.Answers.{Answers};

use crate::answer::{answer_outcome, has_room, refuse};
use bflt_format::Flat;
use call_bytes::{at_zero, program_strings};
use call_log::{Errno, Got, How};
use file_calls::{Call, Outcome, Then};
use kept_parts::{KeptParts, Served};
use mem_files::Tree;
use page_runs::{Chooser, Run};
use region_watch::Mode;
use std::alloc::{AllocError, Global};
use vfork_exec::{Waited, Who};

/// CLONE_VM, CLONE_VFORK and SIGCHLD.
const VFORK_FLAGS: u32 = 0x4111;
/// WNOHANG.
const NO_HANG: u32 = 1;
/// WEXITED.
const EXITED: u32 = 4;
/// The bytes that are told of a child: signo, errno, code, pid, uid and status of siginfo_t.
const INFO_LEN: usize = 24;
/// The signo of a child that ended.
const SIGCHLD: u32 = 17;
/// The code of a child that exited.
const CLD_EXITED: u32 = 1;
/// The code of a child that a signal ended.
const CLD_KILLED: u32 = 2;

/// Why a waitid is refused before it looks for children.
fn fault_of(args: &[u32; 6]) -> Option<Errno>
    ensures { (a : Ask) → a.args ≡ args.now → result ≡ waitid_fault a }
{
    let (kind, options, usage) = (args[0], args[3], args[4]);
    if kind > 1 || (options != EXITED && options != EXITED + NO_HANG) || usage != 0 {
        return Some(Errno::Einval);
    }
    None
}

/// Which children a waitid means that isn't refused: P_ALL, or the one child of P_PID.
fn meant(args: &[u32; 6]) -> Who
    ensures { (a : Ask) → a.args ≡ args.now → result ≡ who_of a }
{
    if args[0] == 0 {
        Who::All
    } else {
        Who::Pid(args[1])
    }
}

/// What is told of a child, as words. They are zero where none has ended.
#[tactic(auto, unfolding(machine_world::specs::FamilyCalls::child_info))]
fn words_of(told: Waited) -> [u32; 6]
    ensures { flat_map (little_bytes 4) result ≡ info_of told }
{
    match told {
        Waited::Child { pid, how } => {
            let (code, status) = match how {
                How::Exit(code) => (CLD_EXITED, code),
                How::Signal(signal) => (CLD_KILLED, signal),
            };
            [SIGCHLD, 0, code, pid, 0, u32::from(status)]
        }
        Waited::NoneYet | Waited::Waits => [0; 6],
    }
}

/// What is told of a child.
fn info_of(alloc: Global, told: Waited) -> Result<Vec<u8>, AllocError>
    ensures { IfOk result (λ info. info.items ≡ info_of told) }
{
    let mut info = Vec::with_capacity(alloc, INFO_LEN)?;
    for word in words_of(told) {
        info.extend_from_slice(&word.to_le_bytes())?;
    }
    Ok(info)
}

/// What a waitid gives that doesn't wait.
fn told_outcome(alloc: Global, at: u32, told: Waited) -> Result<Outcome, AllocError>
    ensures value { IfOk result (λ o. o.value ≡ 0) }
    ensures got { IfOk result (λ o. got_of o ≡ info_at at (info_of told)) }
    ensures nothing { IfOk result (λ o. o.then ≡ Nothing) }
{
    let mut got = Vec::new(alloc);
    if at != 0 {
        got.push(Got {
            addr: at,
            bytes: info_of(alloc, told)?,
        })?;
    }
    Ok(Outcome {
        value: 0,
        got,
        then: Then::Nothing,
    })
}

/// Tells a process of a child that has ended, which goes from the list, or that none has.
fn answer_told(
    parts: &mut KeptParts,
    call: Call,
    who: Who,
    told: Waited,
    mode: Mode,
) -> Result<Served, AllocError>
    requires ready { CanRun parts.old.procs call.pid }
    requires strayed { mode ≡ GoOn → has_stray parts.old.notes ≡ true }
    requires told { looked parts.old.procs call.pid who false ≡ Ok told }
    requires waitid { call.number ≡ numbers.waitid }
    ensures { Answers mode call parts.old parts.new (λ a c. reaped (world_of a parts.old) (asked_by a c) who (Ok told))
        (λ headers a c. reaped_in (physical_of headers a parts.old) (asked_by a c) who (Ok told)) result }
{
    let alloc = *parts.console.allocator();
    let pid = call.pid;
    let outcome = told_outcome(alloc, call.args[2], told)?;
    let served = answer_outcome(parts, call, outcome, mode)?;
    if let Served::Replied = served {
        let _ = parts.procs.wait(pid, who, false);
    }
    Ok(served)
}

/// Carries out waitid, where its output is within reach and the log has room for it.
pub(crate) fn answer_waitid(
    parts: &mut KeptParts,
    call: Call,
    mode: Mode,
) -> Result<Served, AllocError>
    requires ready { CanRun parts.old.procs call.pid }
    requires strayed { mode ≡ GoOn → has_stray parts.old.notes ≡ true }
    requires waitid { call.number ≡ numbers.waitid }
    ensures { Answers mode call parts.old parts.new (λ a c. waitid (world_of a parts.old) (asked_by a c))
        (λ headers a c. waitid_in (physical_of headers a parts.old) (asked_by a c)) result }
{
    if let Some(errno) = fault_of(&call.args) {
        return refuse(parts, call, errno);
    }
    let who = meant(&call.args);
    let may_wait = call.args[3] == EXITED;
    let told = match parts.procs.wait_look(call.pid, who, may_wait) {
        Ok(told) => told,
        Err(errno) => return refuse(parts, call, errno),
    };
    if let Waited::Waits = told {
        let _ = parts.procs.wait(call.pid, who, may_wait);
        return Ok(Served::Waits);
    }
    answer_told(parts, call, who, told, mode)
}

/// Carries out clone, where the log has room for it.
pub(crate) fn answer_clone(parts: &mut KeptParts, call: Call) -> Result<Served, AllocError>
    requires { CanRun parts.old.procs call.pid }
    ensures memory { parts.new.mem ≡ parts.old.mem }
    ensures serves { (a : About) → (c : Caller parts.old call) →
        Serves a (cloned (world_of a parts.old) (asked_by a c)) parts.old parts.new call.pid result }
    ensures holds { HoldsFiles parts.old → HoldsFiles parts.new }
    ensures leaves { IfOk result (Tells parts.old parts.new call.pid) }
{
    if call.args[0] != VFORK_FLAGS {
        return refuse(parts, call, Errno::Einval);
    }
    if parts.procs.full() {
        return refuse(parts, call, Errno::Eagain);
    }
    if !has_room(parts, &call) {
        return Ok(Served::LogFull);
    }
    parts.fork(call)?;
    Ok(Served::TurnEnds)
}

/// The number of the program to which a path leads. ENOENT where nothing is there, EACCES where it is a folder or a file that is no
/// program.
fn program_at(tree: &Tree, path: &[u8]) -> Result<u32, Errno>
    ensures { result ≡ mark_at tree.now (lookup tree.now path.now) }
{
    let Some(node) = tree.lookup(path)? else {
        return Err(Errno::Enoent);
    };
    match tree.program(node) {
        Some(index) => Ok(index),
        None => Err(Errno::Eacces),
    }
}

/// Carries out execve, where the log has room for it.
pub(crate) fn answer_exec<F: Fn(&[Run], u32) -> Option<usize>>(
    parts: &mut KeptParts,
    call: Call,
    programs: &[Flat],
    chooser: &Chooser<F>,
) -> Result<Served, AllocError>
    requires chooser { IsChooser F.pre F.post chooser.now }
    requires ready { CanRun parts.old.procs call.pid }
    ensures serves { ForRuns (kind_of chooser.now) programs.now (λ a. (c : Caller parts.old call) →
        Serves a (exec (world_of a parts.old) (asked_by a c)) parts.old parts.new call.pid result) }
    ensures memory { ForRuns (kind_of chooser.now) programs.now (λ a. (c : Caller parts.old call) →
        ServesIn (headers_of programs.now) a (carried (physical_of (headers_of programs.now) a parts.old) (physical parts.old.mem) (exec (world_of a parts.old) (asked_by a c))) parts.old parts.new call.pid result) }
    ensures holds { HoldsFiles parts.old → HoldsFiles parts.new }
    ensures leaves { IfOk result (Tells parts.old parts.new call.pid) }
{
    let Some((path, _)) = at_zero(&call.sent) else {
        return refuse(parts, call, Errno::Enametoolong);
    };
    let alloc = *parts.console.allocator();
    let Some(strings) = program_strings(alloc, &call.sent, call.args[1], call.args[2])? else {
        return refuse(parts, call, Errno::E2big);
    };
    let index = match program_at(&parts.tree, path) {
        Ok(index) => index,
        Err(errno) => return refuse(parts, call, errno),
    };
    let Some(flat) = programs.get(index as usize) else {
        return refuse(parts, call, Errno::Eacces);
    };
    if !has_room(parts, &call) {
        return Ok(Served::LogFull);
    }
    parts.exec(call, index, flat, strings, chooser)
}
