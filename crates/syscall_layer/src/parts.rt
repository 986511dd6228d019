//! The parts of a run.

ghost use Rattle.std.specs.Prelude.{◌≡◌, ℕ, List, IfOk, OnErr, true, false, Ok};
ghost use Rattle.vfork_exec.specs.Procs.{CanRun};
ghost use Rattle.machine_world.specs.Event.{died};
ghost use Rattle.memory_world.specs.Physical.{has_stray, died_in, outside};
ghost use Rattle.kept_parts.specs.Awake.{awake_in};
ghost use Rattle.kept_parts.specs.declared.served.Served.TheVariants.{Stray, Ended};
ghost use Rattle.kept_parts.specs.InMemory.{DiesIn, ServesIn, physical_of, without_newest};
ghost use Rattle.kept_parts.specs.Regular.{IsRegular};
ghost use Rattle.kept_parts.specs.Serves.{Dies, NotesStray};
ghost use Rattle.kept_parts.specs.Stands.{About, world_of};
ghost use Rattle.syscall_layer.specs.Events.{TakesParts, GivesParts, KeepsParts};
ghost use Rattle.syscall_layer.specs.Parts.{KeepsRun, halted_at, noted_by};
ghost use Rattle.kept_parts.specs.Reach.{is_whole, reach_of};

use crate::answer::beyond_reach;
use bflt_format::Flat;
use kept_parts::{KeptParts, Served, first_stray};
use region_watch::Mode;
use rv32im_step::Access;
use std::alloc::AllocError;
use std::marker::Model;

/// The signal of an access outside memory.
pub(crate) const SIGSEGV: u8 = 11;

/// What the events of a run change, and beside it what they are carried out by.
#[derive(Drop)]
pub struct Parts {
    /// What is kept of all programs.
    pub kept: KeptParts,
    /// The programs that an execve may run.
    pub programs: Vec<Flat>,
    /// What becomes of the run at its first stray access.
    pub mode: Mode,
    /// Whether a stray access was noted.
    pub noted: bool,
}

impl Model for Parts {
    ghost use Rattle.syscall_layer.specs.Parts.{RunParts, AreTied};

    ghost Value = { RunParts };

    ghost use Rattle.syscall_layer.specs.Inside.{parts_of};

    ghost view = { parts_of };

    ghost invariant = { λ p. AreTied p.noted p.kept };
}

impl Parts {
    /// A run in this mode over what is kept, with the programs that an execve may run. Those go on that wait on a pipe which changed,
    /// so that no pipe is marked. It looks through the notes for a stray access.
    pub fn new(mut kept: KeptParts, programs: Vec<Flat>, mode: Mode) -> Parts
        ensures { result ≡ record { kept = awake_in kept; programs = programs.items; mode = mode; noted = has_stray kept.notes } }
    {
        kept.wake_changed();
        let noted = kept.has_stray();
        Parts {
            kept,
            programs,
            mode,
            noted,
        }
    }

    /// The mode in which a run that goes on watches the accesses of its next event: over all of memory behind the note of a stray access,
    /// and else within its process's own bytes.
    pub fn watch_mode(&self) -> Mode
        ensures mode { result ≡ reach_of self.now.noted }
        ensures strayed { has_stray self.now.kept.notes ≡ is_whole result }
    {
        if self.noted { Mode::GoOn } else { Mode::Halt }
    }

    /// Where a run has ended that ends at its first stray access.
    pub fn halted_at(&self) -> Option<Access>
        ensures { result ≡ halted_at self.now.mode self.now.kept.notes }
    {
        match self.mode {
            Mode::GoOn => None,
            Mode::Halt => {
                if self.noted {
                    first_stray(self.kept.log.notes())
                } else {
                    None
                }
            }
        }
    }

    /// Notes the access of a process that strays.
    pub fn note_stray(&mut self, pid: u32, access: Access) -> Result<(), AllocError>
        ensures strays { NotesStray pid access self.old.kept self.new.kept result }
        ensures kept { IfOk result (λ _. self.new ≡ noted_by pid access self.old) }
        ensures sound { IfOk result (λ _. IsRegular (without_newest self.new.kept)) }
        ensures unchanged { OnErr result (self.new ≡ self.old) }
    {
        self.kept.note_stray(pid, access)?;
        self.noted = true;
        Ok(())
    }

    /// Carries out an event behind the note of its stray access; it may change a value beside the parts too. Out of memory, in which it
    /// changes neither, there is no such note either.
    pub fn behind_note<T, C, F: FnOnce(&mut Parts, &mut C) -> Result<T, AllocError>>(
        &mut self,
        pid: u32,
        access: Access,
        beside: &mut C,
        event: F,
    ) -> Result<T, AllocError>
        requires takes { TakesParts F.FnOnce event (noted_by pid access self.old) beside.old }
        requires keeps { KeepsParts F.FnOnce event (noted_by pid access self.old) beside.old }
        ensures gives { IfOk result (λ _. GivesParts F.FnOnce event (noted_by pid access self.old) beside.old result self.new beside.new) }
        ensures unchanged { OnErr result (self.new ≡ self.old) }
        ensures beside { OnErr result (beside.new ≡ beside.old) }
    {
        let noted = self.noted;
        self.note_stray(pid, access)?;
        let done = event(self, beside);
        if done.is_err() {
            self.kept.take_back();
            self.noted = noted;
        }
        done
    }

    /// What comes of an event whose access goes beyond reach: up to the first stray access it strays, and nothing is done; behind its note
    /// it lies outside memory, and ends its process by SIGSEGV. Those go on that wait on a pipe of which an end closes.
    pub fn beyond_reach(&mut self, pid: u32, access: Access) -> Result<Served, AllocError>
        requires { CanRun self.old.kept.procs pid }
        ensures keeps { KeepsRun self.old self.new }
        ensures strays { has_stray self.old.kept.notes ≡ false → (result ≡ Ok (Stray access)) × (self.new ≡ self.old) }
        ensures memory { has_stray self.old.kept.notes ≡ true → (headers : List (List ℕ)) → (a : About) →
            ServesIn headers a (died_in (physical_of headers a self.old.kept) pid outside) self.old.kept self.new.kept pid result }
        ensures ends { has_stray self.old.kept.notes ≡ true → IfOk result (λ served. served ≡ Ended) }
        ensures unchanged { OnErr result (self.new ≡ self.old) }
    {
        let mode = self.watch_mode();
        beyond_reach(&mut self.kept, pid, access, mode)
    }

    /// Ends a process by a signal: its own space goes, and a note is kept. Those go on that wait on a pipe of which an end closes.
    pub fn end_by_signal(&mut self, pid: u32, signal: u8) -> Result<(), AllocError>
        requires { CanRun self.old.kept.procs pid }
        ensures programs { self.new.programs ≡ self.old.programs }
        ensures mode { self.new.mode ≡ self.old.mode }
        ensures noted { self.new.noted ≡ has_stray self.new.kept.notes }
        ensures dies { (a : About) → Dies a (died (world_of a self.old.kept) pid signal) self.old.kept self.new.kept pid result }
        ensures memory { (headers : List (List ℕ)) → (a : About) → DiesIn headers a (died_in (physical_of headers a self.old.kept) pid signal) self.old.kept self.new.kept pid result }
        ensures unchanged { OnErr result (self.new ≡ self.old) }
    {
        self.kept.end_by_signal(pid, signal)
    }
}
