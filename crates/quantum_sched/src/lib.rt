//! Whose turn it is. Here stand a quantum and the choice of its process. No event and no list of quanta.
#![tactic(auto)]

ghost use Rattle.std.specs.Prelude.{◌≡◌, ◌↔◌, [], IsNone};
ghost use Rattle.vfork_exec.specs.Procs.{ready_pids};
ghost use Rattle.quantum_sched.specs.Picked.{picked};

use vfork_exec::Procs;

/// A turn.
#[derive(Clone, Copy, PartialEq, Eq)]
pub struct Quantum {
    /// Which of the processes that may run: any number, counted round and round.
    pub pick: u32,
    /// The most events.
    pub count: u32,
}

/// The pid of the process whose turn it is. None exactly where none may run.
#[tactic(auto, unfolding(crate::specs::Picked::picked))]
pub fn pick<P>(procs: &Procs<P>, q: Quantum) -> Option<u32>
    ensures picked { result ≡ picked q.pick (ready_pids procs.now) }
    ensures none { IsNone result ↔ (ready_pids procs.now ≡ []) }
{
    let count = procs.runnable();
    if count == 0 {
        return None;
    }
    Some(procs.runnable_at(q.pick % count))
}
