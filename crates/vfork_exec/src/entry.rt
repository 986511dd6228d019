//! A process of the list.

ghost use Rattle.std.specs.Prelude.{◌≡◌};
ghost use Rattle.std.specs.Borrow.{Lends, sem};
ghost use Rattle.vfork_exec.specs.Procs.{with_value, behind};

use crate::family::State;

/// A process that lives: its number, that of its parent (0 is none), how it stands with it, and what is kept of it.
#[derive(Drop)]
pub struct Entry<P> {
    pub pid: u32,
    pub parent: u32,
    pub state: State,
    pub value: P,
}

impl<P> Entry<P> {
    ghost use Rattle.vfork_exec.specs.contracts.entry.Entry.{the_row};

    pub fn value_mut(&mut self) -> &mut P
        ensures* lends { sem 𝓛 (Lends (the_row P.row) P.row self.entry result (with_value self.old)) }
        ensures value { result.now ≡ self.old.value }
    {
        &mut self.value
    }

    /// A process with this pid and this parent has ended.
    pub fn leave(&mut self, pid: u32, parent: u32)
        ensures { self.new ≡ behind pid parent self.old }
    {
        self.state = self.state.behind(self.pid, pid, parent);
        if self.parent == pid {
            self.parent = 0;
        }
    }
}
