//! One program by itself: its memory, and the processes that run in it.

ghost use Rattle.std.specs.Prelude.{◌≡◌, false, IfOk, map};
ghost use Rattle.call_log.specs.Values.{entry_value, got_value};
ghost use Rattle.flat_loader.specs.Alone.{is_call, is_errno, is_same, args_of, leaves_space, replied, child_regs, solo_effect};
ghost use Rattle.replay_check.specs.Ranges.{own_memory};
ghost use Rattle.replay_check.specs.Answers.{AreFilled, GivesOrRefutes, told, answered};
ghost use Rattle.replay_check.specs.Solos.{runner_value, solo_of, item_of, RunsOn, Pops};

use crate::memory::LoneMemory;
use call_bytes::Unread;
use call_log::{Entry, numbers};
use region_watch::Progress;
use rv32im_step::Regs;
use std::alloc::{AllocError, Global};

/// A process: its pid and its registers.
#[derive(Clone, Copy)]
pub(crate) struct Runner {
    pub(crate) pid: u32,
    pub(crate) regs: Regs,
}

/// A program by itself.
#[derive(Drop)]
pub(crate) struct Lone {
    pub(crate) memory: LoneMemory,
    /// The owner, and behind it those that borrow its memory from vfork on; the last one runs.
    pub(crate) stack: Vec<Runner>,
}

/// The arguments of the call at which a process stands: a0 to a5.
#[tactic(auto, unfolding(rv32im_step::specs::Registers::register))]
fn args_of(regs: &Regs) -> [u32; 6]
    ensures { result ≡ args_of regs.now }
{
    let x = &regs.x;
    [x[10], x[11], x[12], x[13], x[14], x[15]]
}

/// The reply goes to a0, and the instruction after the call follows.
#[tactic(auto, unfolding(rv32im_step::specs::Registers::with_register))]
fn replied(regs: &Regs, reply: u32) -> Regs
    ensures { result ≡ replied regs.now reply }
{
    let mut now = *regs;
    now.pc = now.pc.wrapping_add(4);
    now.x[10] = reply;
    now
}

/// The child's registers behind a vfork: its parent's, with 0 in a0, and the stack pointer that is given, if one is.
#[tactic(auto, unfolding(rv32im_step::specs::Registers::with_register))]
fn child_regs(regs: &Regs, sp: u32) -> Regs
    ensures { result ≡ child_regs regs.now sp }
{
    let mut now = replied(regs, 0);
    if sp != 0 {
        now.x[2] = sp;
    }
    now
}

/// The two are the same.
fn is_same_bytes(xs: &[u8], ys: &[u8]) -> bool
    ensures { result ≡ is_same xs.now ys.now }
{
    xs == ys
}

/// The two are the same.
fn is_same_words(xs: &[u32], ys: &[u32]) -> bool
    ensures { result ≡ is_same xs.now ys.now }
{
    xs == ys
}

/// The last 4,095 words are refusals.
#[tactic(auto, unfolding(flat_loader::specs::Alone::is_errno))]
fn is_errno(reply: u32) -> bool
    ensures { result ≡ is_errno reply }
{
    reply >= 0xffff_f001
}

/// exit, exit_group, and an execve that isn't refused.
fn leaves_space(entry: &Entry) -> bool
    ensures { result ≡ leaves_space (entry_value entry.now) }
{
    entry.call == numbers::EXIT
        || entry.call == numbers::EXIT_GROUP
        || entry.call == numbers::EXECVE && entry.reply == 0
}

impl Runner {
    /// The entry tells of the call at which the process stands, with the bytes that it reads.
    #[tactic(auto, unfolding(flat_loader::specs::Alone::is_call, rv32im_step::specs::Registers::register))]
    fn is_call(&self, sent: &[u8], entry: &Entry) -> bool
        ensures { result ≡ is_call (runner_value self.now) sent.now (entry_value entry.now) }
    {
        let args = args_of(&self.regs);
        entry.pid == self.pid
            && entry.call == self.regs.x[17]
            && is_same_words(&entry.args, &args)
            && is_same_bytes(&entry.sent, sent)
    }
}

impl LoneMemory {
    /// Whether an entry tells of the call at which a process stands. Where it does, its output is written; else nothing.
    #[tactic(auto, unfolding(crate::specs::Answers::told))]
    fn told(&mut self, alloc: Global, top: &Runner, entry: &Entry) -> Result<bool, AllocError>
        requires { AreFilled (map got_value entry.now.got.items) }
        ensures gives { IfOk result (λ right. GivesOrRefutes (told (runner_value top.now) (own_memory self.old) (entry_value entry.now)) right (own_memory self.new)) }
        ensures kept { result ≡ Ok false → self.new ≡ self.old }
    {
        let args = args_of(&top.regs);
        match self.sent(alloc, top.regs.x[17], &args) {
            Ok(sent) => Ok(top.is_call(&sent, entry) && self.put(&entry.got)),
            Err(Unread::Stray { .. }) => Ok(false),
            Err(Unread::Memory) => Err(AllocError),
        }
    }
}

impl Lone {
    /// Carries out up to `count` instructions of the process that runs. None where no process is left.
    pub(crate) fn run(&mut self, count: u32) -> Option<Progress>
        ensures { RunsOn count (solo_of self.old) (solo_of self.new) result }
    {
        let top = self.stack.last_mut()?;
        Some(self.memory.run(&mut top.regs, count))
    }

    /// The process that runs goes.
    pub(crate) fn pop(&mut self)
        ensures { Pops (solo_of self.old) (solo_of self.new) }
    {
        self.stack.pop();
    }

    /// What a call that isn't refused changes beside the caller's registers, which were `regs` at the call. False where it
    /// can't be.
    fn take_effect(
        &mut self,
        regs: &Regs,
        entry: &Entry,
        brought: &[u8],
    ) -> Result<bool, AllocError>
        ensures { IfOk result (λ right. GivesOrRefutes (solo_effect (solo_of self.old) regs.now (item_of entry.now brought.now)) right (solo_of self.new)) }
    {
        match entry.call {
            numbers::MMAP2 => self.memory.map_new(entry, brought),
            numbers::MUNMAP if entry.reply == 0 => self.memory.unmap(entry.args[0], entry.args[1]),
            numbers::CLONE => {
                let regs = child_regs(regs, entry.args[1]);
                self.stack.push(Runner {
                    pid: entry.reply,
                    regs,
                })?;
                Ok(true)
            }
            _ => Ok(true),
        }
    }

    /// The process that runs stands at a call, of which this entry has to tell. False where it doesn't, and where its effect
    /// can't be.
    pub(crate) fn answer(
        &mut self,
        alloc: Global,
        entry: &Entry,
        brought: &[u8],
    ) -> Result<bool, AllocError>
        requires { AreFilled (map got_value entry.now.got.items) }
        ensures { IfOk result (λ right. GivesOrRefutes (answered (solo_of self.old) (item_of entry.now brought.now)) right (solo_of self.new)) }
    {
        let Some(top) = self.stack.pop() else {
            return Ok(false);
        };
        if !self.memory.told(alloc, &top, entry)? {
            return Ok(false);
        }
        if leaves_space(entry) {
            return Ok(true);
        }
        self.stack.push(Runner {
            pid: top.pid,
            regs: replied(&top.regs, entry.reply),
        })?;
        if is_errno(entry.reply) {
            return Ok(true);
        }
        self.take_effect(&top.regs, entry, brought)
    }
}
