//! The list of processes.

ghost use Rattle.std.specs.Prelude.{◌≡◌, ℕ, ◌<◌, ◌≤◌, ◌^◌, length, map, reverse, slice_get, is_some, nat_le, Some, IfOk};
ghost use Rattle.std.specs.Borrow.{sem};
ghost use Rattle.vfork_exec.specs.declared.entry.Entry.{Entry as Process};
ghost use Rattle.vfork_exec.specs.Procs.{most_entries, none_yet, count, Starts, Forks, with_exec, with_end, looked, with_wait, with_wait_on, with_wake, Lives, process, value_at, parent_at, pid_of, ready, ready_pids, borrows, with_entry};
ghost use Rattle.vfork_exec.specs.Keyed.{place_of, Falls};

use crate::ended::{add_ended, first_ended, forget_first};
use crate::entries::{has_child, is_lent, leave, ready_at, ready_count, resume, rouse};
use crate::entry::Entry;
use crate::family::{Ended, State, Waited, Who};
use call_log::{Errno, How};
use std::alloc::{AllocError, Global};
use std::marker::Model;

/// The most processes at a time, those that have ended among them.
const MOST_ENTRIES: usize = 64;

/// The processes that live, with what is kept of each, and those that have ended while their parent lives. A pid is given once: 1,
/// 2, 3 and so on.
#[derive(Drop)]
pub struct Procs<P> {
    // newest first
    entries: Vec<Entry<P>>,
    // in the order in which they ended
    ended: Vec<Ended>,
    // how many pids were given
    given: u32,
}

impl<P> Model for Procs<P> {
    ghost use Rattle.std.specs.Prelude.{◌+◌, ◌≤◌, vec_capacity, length};
    ghost use Rattle.vfork_exec.specs.Procs.{Listed, pid_of, most_entries};
    ghost use Rattle.vfork_exec.specs.Keyed.{Falls};

    ghost Value = { Listed P };

    ghost view = { λ s. record { entries = s.entries.items; ended = s.ended.items; next_pid = s.given + 1 } };

    ghost invariant = { λ s.
        Falls pid_of (s.given + 1) s.entries.items
        × (length s.entries.items + length s.ended.items ≤ most_entries)
        × (most_entries ≤ vec_capacity s.entries)
        × (most_entries ≤ vec_capacity s.ended) };
}

impl<P> Procs<P> {
    ghost use Rattle.vfork_exec.specs.Lends.{lends_value};

    /// An empty list, with room for 64 processes.
    pub fn new(alloc: Global) -> Result<Procs<P>, AllocError>
        ensures { IfOk result (λ procs. procs ≡ none_yet) }
    {
        let ended = Vec::with_capacity(alloc, MOST_ENTRIES)?;
        Ok(Procs {
            entries: Vec::with_capacity(alloc, MOST_ENTRIES)?,
            ended,
            given: 0,
        })
    }

    /// Whether there are 64 processes, those that have ended among them.
    pub fn full(&self) -> bool
        ensures full { result ≡ nat_le most_entries (count self.now) }
        ensures most { count self.now ≤ most_entries }
    {
        self.entries.len() + self.ended.len() == MOST_ENTRIES
    }

    /// Adds a process that none started, and gives its pid; None where there are 64.
    pub fn start(&mut self, value: P) -> Option<u32>
    where
        P: Drop,
        requires { self.old.next_pid < 2 ^ 32 }
        ensures { Starts self.old value self.new result }
    {
        if self.full() {
            return None;
        }
        Some(self.add(0, value))
    }

    /// Adds a child of a process, and gives its pid. The parent stands still until the child's exec or end. EAGAIN
    /// where there are 64.
    pub fn vfork(&mut self, pid: u32, child: P) -> Result<u32, Errno>
    where
        P: Drop,
        requires lives { Lives self.old pid }
        requires pids { self.old.next_pid < 2 ^ 32 }
        ensures { Forks self.old pid child self.new result }
    {
        if self.full() {
            return Err(Errno::Eagain);
        }
        let child = self.add(pid, child);
        let at = self.place(pid);
        self.entries[at].state = State::Lent(child);
        Ok(child)
    }

    /// A process has a space of its own from now on: the parent that stood still for it goes on.
    pub fn exec_done(&mut self, pid: u32)
        ensures { self.new ≡ with_exec self.old pid }
    {
        resume(&mut self.entries, pid);
    }

    /// A process ends. The parent that stood still or waits for it goes on, its children have no parent, and those that have ended
    /// go with it. It stays among those that have ended until its parent waits for it; without a parent it goes at once.
    pub fn end(&mut self, pid: u32, how: How)
    where
        P: Drop,
        requires { Lives self.old pid }
        ensures { (e : Process P) → process self.old pid ≡ Some e → self.new ≡ with_end self.old e how }
    {
        let at = self.place(pid);
        let parent = self.entries.remove(at).parent;
        leave(&mut self.entries, pid, parent);
        add_ended(&mut self.ended, Ended { pid, parent, how });
    }

    /// What `wait` would answer. ECHILD where there is no such child.
    pub fn wait_look(&self, pid: u32, who: Who, may_wait: bool) -> Result<Waited, Errno>
        ensures { result ≡ looked self.now pid who may_wait }
    {
        if let Some(child) = first_ended(&self.ended, pid, who) {
            return Ok(Waited::Child {
                pid: child.pid,
                how: child.how,
            });
        }
        if !has_child(&self.entries, pid, who) {
            return Err(Errno::Echild);
        }
        Ok(if may_wait {
            Waited::Waits
        } else {
            Waited::NoneYet
        })
    }

    /// A process asks for one of its children that has ended. The one that ended first goes from the list. If none has ended it
    /// waits until one has, if it may: it can't run until then, and then asks anew. ECHILD where there is no such child.
    pub fn wait(&mut self, pid: u32, who: Who, may_wait: bool) -> Result<Waited, Errno>
        requires { Lives self.old pid }
        ensures answer { result ≡ looked self.old pid who may_wait }
        ensures after { self.new ≡ with_wait self.old pid who result }
    {
        let told = self.wait_look(pid, who, may_wait)?;
        match told {
            Waited::Child { .. } => forget_first(&mut self.ended, pid, who),
            Waited::NoneYet => {}
            Waited::Waits => {
                let at = self.place(pid);
                self.entries[at].state = State::Waiting(who);
            }
        }
        Ok(told)
    }

    /// A process waits on the pipe with this number, any number: it can't run until `wake` is called of it. One that doesn't live
    /// waits on none.
    pub fn wait_on(&mut self, pid: u32, pipe: u32)
        ensures { self.new ≡ with_wait_on self.old pid pipe }
    {
        if self.lives(pid) {
            let at = self.place(pid);
            self.entries[at].state = State::OnPipe(pipe);
        }
    }

    /// The processes that wait on this pipe, which may be gone, may run, and make their calls anew.
    pub fn wake(&mut self, pipe: u32)
        ensures { self.new ≡ with_wake self.old pipe }
    {
        rouse(&mut self.entries, pipe);
    }

    /// Whether a process runs in the space of another one, which stands still for it.
    #[tactic(auto, unfolding(crate::specs::Procs::borrows))]
    pub fn borrows(&self, pid: u32) -> bool
        ensures { result ≡ borrows self.now pid }
    {
        is_lent(&self.entries, pid)
    }

    /// What is kept of a process.
    pub fn get(&self, pid: u32) -> &P
        requires { Lives self.now pid }
        ensures { value_at self.now pid ≡ Some result.now }
    {
        let at = self.place(pid);
        &self.entries[at].value
    }

    /// The same for writing.
    pub fn get_mut(&mut self, pid: u32) -> &mut P
        requires { Lives self.old pid }
        ensures* lends { sem 𝓛 (lends_value P.row self.entry pid result) }
        ensures value { value_at self.old pid ≡ Some result.now }
    {
        let at = self.place(pid);
        self.entries[at].value_mut()
    }

    /// The pid of a process's parent, or 0.
    pub fn parent(&self, pid: u32) -> u32
        requires { Lives self.now pid }
        ensures { parent_at self.now pid ≡ Some result }
    {
        self.entries[self.place(pid)].parent
    }

    /// How many processes live.
    pub fn live(&self) -> u32
        ensures count { result ≡ length self.now.entries }
        ensures most { count self.now ≤ most_entries }
        ensures falls { Falls pid_of self.now.next_pid self.now.entries }
    {
        self.entries.len() as u32
    }

    /// Whether the process of this number, any number, lives.
    pub fn lives(&self, pid: u32) -> bool
        ensures { result ≡ is_some (process self.now pid) }
    {
        first_place(&self.entries, pid) < self.entries.len()
    }

    /// How many processes may run.
    pub fn runnable(&self) -> u32
        ensures { result ≡ length (ready self.now) }
    {
        ready_count(&self.entries) as u32
    }

    /// The pid of the process that may run with this number, from 0, ascending by pid.
    pub fn runnable_at(&self, k: u32) -> u32
        requires { k < length (ready self.now) }
        ensures { slice_get (reverse (ready_pids self.now)) k ≡ Some result }
    {
        ready_at(&self.entries, k as usize)
    }

    fn add(&mut self, parent: u32, value: P) -> u32
    where
        P: Drop,
        requires room { count self.old < most_entries }
        requires pids { self.old.next_pid < 2 ^ 32 }
        ensures pid { result ≡ self.old.next_pid }
        ensures after { self.new ≡ with_entry self.old parent value }
    {
        let pid = self.given + 1;
        let entry = Entry {
            pid,
            parent,
            state: State::Ready,
            value,
        };
        if self.entries.insert(0, entry).is_err() {
            unreachable!();
        }
        self.given = pid;
        pid
    }

    fn place(&self, pid: u32) -> usize
        requires { Lives self.now pid }
        ensures place { result ≡ place_of pid_of pid self.now.entries }
        ensures within { result < length self.now.entries }
    {
        first_place(&self.entries, pid)
    }
}

/// The place of the entry with this pid, or the number of entries: the pids fall, so that half of them is left each time.
fn first_place<P>(entries: &[Entry<P>], pid: u32) -> usize
    requires { (bound : ℕ) × Falls pid_of bound entries.now }
    ensures { result ≡ place_of pid_of pid entries.now }
{
    let (mut low, mut high) = (0, entries.len());
    while low < high {
        let middle = low + (high - low) / 2;
        if entries[middle].pid > pid {
            low = middle + 1;
        } else {
            high = middle;
        }
    }
    if low < entries.len() && entries[low].pid == pid {
        return low;
    }
    entries.len()
}
