//! All programs of a machine in one memory: their processes and spaces, the log and the console, and each change of them.
//!
//! What may stand here: what is kept of all programs, how a program starts and ends, and what one system call changes. What
//! may not: which call is which, whose turn it is, and what is written of a run.
#![tactic(auto)]

mod effect;
mod ending;
mod exec;
mod follow;
mod fork;
mod home;
mod keep;
mod kept;
mod laws;
mod maps;
mod reach;
mod reply;
mod served;
mod start;
mod stray;
mod task;
mod wake;

pub use effect::Effect;
pub use kept::KeptParts;
pub use laws::free_runs_law;
pub use reach::first_stray;
pub use served::Served;
pub use start::StartRefusal;
pub use task::Task;
