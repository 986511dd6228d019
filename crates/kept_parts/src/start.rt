//! The start of a program.

ghost use Rattle.std.specs.Prelude.{◌≡◌, ℕ, [], ◌<◌, ◌^◌, IfOk, List, Some, length, slice_get};
ghost use Rattle.page_runs.specs.Choosers.{IsChooser, kind_of};
ghost use Rattle.flat_loader.specs.Frame.{texts};
ghost use Rattle.flat_loader.specs.Original.{flat_original};
ghost use Rattle.vfork_exec.specs.Procs.{count, most_entries};
ghost use Rattle.kept_parts.specs.Regular.{most_first};
ghost use Rattle.kept_parts.specs.Refusals.{refusal_of};
ghost use Rattle.kept_parts.specs.Recorded.{args_of, args_in, program_recorded};
ghost use Rattle.kept_parts.specs.InMemory.{header_of, LaysOn};
ghost use Rattle.kept_parts.specs.Starts.{LeavesOtherBytes, Starts};

use crate::keep::or_unreserve;
use crate::kept::KeptParts;
use crate::task::Task;
use bflt_format::Flat;
use call_log::Note;
use flat_loader::{LoadRefusal, load};
use page_runs::{Chooser, Run};
use recordings::{Launch, Recording};
use std::alloc::{AllocError, Global};

/// Why a program doesn't start.
#[derive(Clone, Copy, PartialEq, Eq)]
pub enum StartRefusal {
    /// Its start frame doesn't fit into its stack.
    E2big,
    /// No free run has the pages that it needs.
    NoRun,
    /// Out of host memory.
    Memory,
}

impl From<LoadRefusal> for StartRefusal {
    ghost from_gives = { λ refusal e. e ≡ refusal_of refusal };

    fn from(refusal: LoadRefusal) -> StartRefusal {
        match refusal {
            LoadRefusal::E2big => StartRefusal::E2big,
            LoadRefusal::NoRun => StartRefusal::NoRun,
            LoadRefusal::Memory => StartRefusal::Memory,
        }
    }
}

/// The same strings once more.
fn copied(alloc: Global, strings: &[Vec<u8>]) -> Result<Vec<Vec<u8>>, AllocError>
    ensures { IfOk result (λ copies. texts copies.items ≡ texts strings.now) }
{
    let mut copies = Vec::new(alloc);
    for string in strings {
        copies.push(string.clone()?)?;
    }
    Ok(copies)
}

/// The program that a process starts with is recorded, if its arguments were copied for that.
fn record_start(
    recording: &mut Recording,
    flat: &Flat,
    base: u32,
    pid: u32,
    args: Option<Vec<Vec<u8>>>,
    alloc: Global,
)
    ensures { (space : ℕ) → (strings : List (List ℕ)) → args_of args ≡ args_in recording.old space strings →
        recording.new ≡ program_recorded recording.old space (record { stack = flat.now.stack; base = base; pid = pid; args = strings; env = [] }) }
{
    let Some(args) = args else {
        return;
    };
    recording.launch(Launch {
        stack: flat.stack(),
        base,
        pid,
        args,
        env: Vec::new(alloc),
    });
}

impl KeptParts {
    /// The arguments of a program once more, if it goes into the space that is recorded.
    fn recorded_args(&self, args: &[Vec<u8>]) -> Result<Option<Vec<Vec<u8>>>, AllocError>
        requires { length self.now.spaces < most_first }
        ensures { IfOk result (λ copies. args_of copies ≡ args_in self.now.recording (length self.now.spaces) (texts args.now)) }
    {
        if !self.recording.has(self.spaces.len() as u32) {
            return Ok(None);
        }
        Ok(Some(copied(*self.spaces.allocator(), args)?))
    }

    /// Loads program number `index` and starts a process with it. Its arguments are recorded where its space is. A refusal changes nothing.
    pub fn start<F: Fn(&[Run], u32) -> Option<usize>>(
        &mut self,
        index: u32,
        flat: &Flat,
        args: &[Vec<u8>],
        chooser: &Chooser<F>,
    ) -> Result<(), StartRefusal>
        requires chooser { IsChooser F.pre F.post chooser.now }
        requires few { count self.old.procs < most_entries }
        requires pids { self.old.procs.next_pid < most_first }
        requires spaces { length self.old.spaces < most_first }
        ensures starts { Starts (kind_of chooser.now) index (flat_original flat.now) (texts args.now) self.old self.new result }
        ensures memory { (headers : List (List ℕ)) → slice_get headers index ≡ Some (header_of flat.now) → IfOk result (λ _. LaysOn headers self.old self.new) }
        ensures others { IfOk result (λ _. LeavesOtherBytes self.old self.new) }
    {
        let Ok(copies) = self.recorded_args(args) else {
            return Err(StartRefusal::Memory);
        };
        if self.spaces.reserve(1).is_err()
            || self.files.ready().is_err()
            || self.log.reserve(1).is_err()
        {
            return Err(StartRefusal::Memory);
        }
        let alloc = *self.spaces.allocator();
        let loaded = load(
            alloc,
            &mut self.regions,
            &mut self.mem,
            flat,
            args,
            &[],
            chooser,
        );
        let program = or_unreserve(&mut self.log, loaded)?;
        let number = self.spaces.len() as u32;
        self.spaces.push_reserved(Some(program.space));
        let table = self.files.new_table().unwrap();
        let task = Task {
            regs: program.regs,
            space: number,
            table,
        };
        let pid = self.procs.start(task).unwrap();
        record_start(&mut self.recording, flat, program.base, pid, copies, alloc);
        let note = Note::Load {
            pid,
            program: index,
            base: program.base,
            pages: program.pages,
        };
        self.log.push(note).unwrap();
        Ok(())
    }
}
