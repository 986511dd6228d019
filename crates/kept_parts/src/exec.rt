//! A program in the place of another one (Linux, execve(2), in this project's profile).

ghost use Rattle.std.specs.Prelude.{◌≡◌, ◌-◌, ◌≤◌, ℕ, ◌∷◌, [], true, IfOk, List, length, slice_get, Some};
ghost use Rattle.page_runs.specs.Choosers.{IsChooser, kind_of};
ghost use Rattle.call_log.specs.Notes.{has_room, load_note};
ghost use Rattle.flat_loader.specs.Frame.{frame_fits, texts};
ghost use Rattle.flat_loader.specs.Original.{flat_original};
ghost use Rattle.vfork_exec.specs.Procs.{CanRun, Lives, value_at, with_exec, with_value_at};
ghost use Rattle.machine_world.specs.Asks.{refuses};
ghost use Rattle.recordings.specs.Inside.{launch_value};
ghost use Rattle.machine_world.specs.Event.{answered, exec_fitting};
ghost use Rattle.kept_parts.specs.declared.task.Task.{Task};
ghost use Rattle.kept_parts.specs.Stands.{About, world_of};
ghost use Rattle.region_watch.specs.Private.{physical};
ghost use Rattle.memory_world.specs.Physical.{carried};
ghost use Rattle.kept_parts.specs.InMemory.{header_of, physical_of, ServesIn};
ghost use Rattle.kept_parts.specs.declared.served.Served.TheVariants.{Replied};
ghost use Rattle.kept_parts.specs.Copies.{HoldsFiles};
ghost use Rattle.kept_parts.specs.Recorded.{room_beside, program_recorded};
ghost use Rattle.kept_parts.specs.Serves.{Serves};
ghost use Rattle.kept_parts.specs.Calls.{Caller, asked_by, noted_call};

use crate::effect::Effect;
use crate::keep::{keep, note_call, or_unreserve};
use crate::kept::KeptParts;
use crate::served::Served;
use crate::task::Task;
use bflt_format::Flat;
use call_bytes::ProgramStrings;
use call_log::{Errno, Got, Log, Note};
use file_calls::Call;
use flat_loader::{LoadRefusal, load};
use page_runs::{Chooser, Run};
use recordings::{Launch, Recording};
use rv32im_step::Regs;
use std::alloc::AllocError;
use vfork_exec::Procs;

/// A process goes on with these registers in the space of this number. The parent that stood still for it goes on.
fn switch(procs: &mut Procs<Task>, pid: u32, regs: Regs, space: u32)
    requires { Lives procs.old pid }
    ensures { (t : Task) → value_at procs.old pid ≡ Some t → procs.new ≡ with_value_at (with_exec procs.old pid) pid (record t { regs = regs; space = space }) }
{
    procs.exec_done(pid);
    let task = procs.get_mut(pid);
    task.regs = regs;
    task.space = space;
}

/// What is recorded of a program that is loaded there, with these strings.
fn launch_of(flat: &Flat, base: u32, pid: u32, strings: ProgramStrings) -> Launch
    ensures { launch_value result ≡ record { stack = flat.now.stack; base = base; pid = pid; args = texts strings.args.items; env = texts strings.env.items } }
{
    Launch {
        stack: flat.stack(),
        base,
        pid,
        args: strings.args,
        env: strings.env,
    }
}

/// The program that is loaded into a space is recorded, if that is the recorded one.
fn record_program(recording: &mut Recording, space: u32, launch: Launch)
    ensures { recording.new ≡ program_recorded recording.old space (launch_value launch) }
{
    if recording.has(space) {
        recording.launch(launch);
    }
}

/// The call is noted, and then the program that begins.
fn note_exec(log: &mut Log, call: Call, got: Vec<Got>, index: u32, base: u32, pages: u32)
    requires spare { 2 ≤ log.old.spare }
    requires empty { got.items ≡ [] }
    requires room { has_room log.old.notes (length call.sent.items) ≡ true }
    ensures notes { log.new.notes ≡ load_note (record { pid = call.pid; program = index; base = base; pages = pages }) ∷ noted_call call 0 [] ∷ log.old.notes }
    ensures spare { log.new.spare ≡ log.old.spare - 2 }
{
    let pid = call.pid;
    note_call(log, call, 0, got);
    keep(
        log,
        Note::Load {
            pid,
            program: index,
            base,
            pages,
        },
    );
}

impl KeptParts {
    /// Puts program number `index`, with these strings, in the place of the one that makes this call. Its block is looked for while
    /// the old space is held; then that goes, unless another process lent it. Descriptors close that are marked so. E2BIG where the
    /// start frame doesn't fit, ENOMEM where no free run is long enough. There is room for the call's note. Its strings are recorded
    /// where its space is.
    pub fn exec<F: Fn(&[Run], u32) -> Option<usize>>(
        &mut self,
        call: Call,
        index: u32,
        flat: &Flat,
        strings: ProgramStrings,
        chooser: &Chooser<F>,
    ) -> Result<Served, AllocError>
        requires chooser { IsChooser F.pre F.post chooser.now }
        requires ready { CanRun self.old.procs call.pid }
        requires room { room_beside self.old (length call.sent.items) ≡ true }
        ensures serves { (a : About) → a.kind ≡ kind_of chooser.now → (c : Caller self.old call) →
            Serves a
            (exec_fitting (world_of a self.old) (asked_by a c) (record { index = index; original = flat_original flat.now }) (record { args = texts strings.args.items; env = texts strings.env.items })
            (frame_fits (flat_original flat.now) (texts strings.args.items) (texts strings.env.items)))
            self.old self.new call.pid result }
        ensures memory { (headers : List (List ℕ)) → (a : About) → a.kind ≡ kind_of chooser.now → slice_get headers index ≡ Some (header_of flat.now) → (c : Caller self.old call) →
            ServesIn headers a (carried (physical_of headers a self.old) (physical self.old.mem)
            (exec_fitting (world_of a self.old) (asked_by a c) (record { index = index; original = flat_original flat.now }) (record { args = texts strings.args.items; env = texts strings.env.items })
            (frame_fits (flat_original flat.now) (texts strings.args.items) (texts strings.env.items))))
            self.old self.new call.pid result }
        ensures holds { HoldsFiles self.old → HoldsFiles self.new }
        ensures replied { IfOk result (λ served. served ≡ Replied) }
    {
        self.spaces.reserve(1)?;
        self.log.reserve(2)?;
        let alloc = *self.spaces.allocator();
        let loaded = load(
            alloc,
            &mut self.regions,
            &mut self.mem,
            flat,
            &strings.args,
            &strings.env,
            chooser,
        );
        match or_unreserve(&mut self.log, loaded) {
            Ok(program) => {
                let task = *self.procs.get(call.pid);
                let lent = self.procs.borrows(call.pid);
                let number = self.spaces.len() as u32;
                self.spaces.push_reserved(Some(program.space));
                self.files.exec_close(&mut self.tree, task.table);
                switch(&mut self.procs, call.pid, program.regs, number);
                self.recording.pass(task.space, 1);
                let launch = launch_of(flat, program.base, call.pid, strings);
                record_program(&mut self.recording, number, launch);
                let got = Vec::new(alloc);
                note_exec(&mut self.log, call, got, index, program.base, program.pages);
                if !lent {
                    self.give_up(task.space);
                }
                Ok(Served::Replied)
            }
            Err(LoadRefusal::E2big) => self.refuse(call, Errno::E2big),
            Err(LoadRefusal::NoRun) => self.refuse(call, Errno::Enomem),
            Err(LoadRefusal::Memory) => Err(AllocError),
        }
    }

    /// A call is refused. There is room for its note.
    fn refuse(&mut self, call: Call, errno: Errno) -> Result<Served, AllocError>
        requires lives { Lives self.old.procs call.pid }
        requires room { room_beside self.old (length call.sent.items) ≡ true }
        ensures memory { self.new.mem ≡ self.old.mem }
        ensures serves { (a : About) → (c : Caller self.old call) →
            Serves a (answered (world_of a self.old) (asked_by a c) (refuses (asked_by a c) errno)) self.old self.new call.pid result }
        ensures holds { HoldsFiles self.old → HoldsFiles self.new }
        ensures replied { IfOk result (λ served. served ≡ Replied) }
    {
        self.reply(call, Effect::Answer(errno.refusal()))?;
        Ok(Served::Replied)
    }
}
