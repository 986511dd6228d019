//! How processes stand to each other.

ghost use Rattle.std.specs.Prelude.{◌≡◌};
ghost use Rattle.vfork_exec.specs.Families.{is_child, is_ready, is_lent_to, resumed, state_behind, roused};

use call_log::How;

/// Which of its children a process waits for.
#[derive(Clone, Copy)]
pub enum Who {
    All,
    /// The child with this pid.
    Pid(u32),
}

impl Who {
    /// Whether a process with this pid and this parent is one of the children that process `own` means.
    pub fn is_child(self, own: u32, pid: u32, parent: u32) -> bool
        ensures { result ≡ is_child own self pid parent }
    {
        parent == own
            && match self {
                Who::All => true,
                Who::Pid(id) => pid == id,
            }
    }
}

/// How it stands with a process that lives.
#[derive(Clone, Copy)]
pub enum State {
    /// It may run.
    Ready,
    /// It waits until one of these children has ended.
    Waiting(Who),
    /// It waits until the bytes of the pipe with this number change, or one of its ends closes.
    OnPipe(u32),
    /// It stands still while the child with this pid runs in its space: from vfork until the child's exec or end.
    Lent(u32),
}

impl State {
    pub fn is_ready(self) -> bool
        ensures { result ≡ is_ready self }
    {
        match self {
            State::Ready => true,
            State::Waiting(_) | State::OnPipe(_) | State::Lent(_) => false,
        }
    }

    /// Whether it stands still for this child.
    pub fn is_lent_to(self, child: u32) -> bool
        ensures { result ≡ is_lent_to child self }
    {
        match self {
            State::Ready | State::Waiting(_) | State::OnPipe(_) => false,
            State::Lent(pid) => pid == child,
        }
    }

    /// Once this child has left its space.
    #[tactic(auto, unfolding(crate::specs::Families::resumed))]
    pub fn resumed(self, child: u32) -> State
        ensures { result ≡ resumed child self }
    {
        if self.is_lent_to(child) {
            return State::Ready;
        }
        self
    }

    /// The state of process `own` once a process with this pid and this parent has ended.
    #[tactic(auto, unfolding(crate::specs::Families::state_behind, crate::specs::Families::resumed))]
    pub fn behind(self, own: u32, pid: u32, parent: u32) -> State
        ensures { result ≡ state_behind own pid parent self }
    {
        if let State::Waiting(who) = self
            && who.is_child(own, pid, parent)
        {
            return State::Ready;
        }
        self.resumed(pid)
    }

    /// Once this pipe has changed: who waits on it makes its call anew.
    #[tactic(auto, unfolding(crate::specs::Families::roused))]
    pub fn roused(self, pipe: u32) -> State
        ensures { result ≡ roused pipe self }
    {
        match self {
            State::OnPipe(id) if id == pipe => State::Ready,
            state => state,
        }
    }
}

/// A process that has ended, and that its parent hasn't waited for.
#[derive(Clone, Copy)]
pub struct Ended {
    pub pid: u32,
    pub parent: u32,
    pub how: How,
}

/// What a process is told that asks for its children.
#[derive(Clone, Copy)]
pub enum Waited {
    /// Of those that have ended, the one that ended first.
    Child { pid: u32, how: How },
    /// None has ended.
    NoneYet,
    /// None has ended, and it waits until one has.
    Waits,
}
