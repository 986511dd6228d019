//! The list of processes: who lives, who started whom, who stands still or waits, who has ended, and what is kept of each.
//! Here stand the list `Procs`, which is generic in what is kept of a process, and the words on lists with numbers of their own.
//! No registers, no memory and no turn.
#![tactic(auto)]

mod ended;
mod entries;
mod entry;
mod family;
mod laws;
mod procs;

pub use family::{Ended, State, Waited, Who};
pub use laws::others_law;
pub use procs::Procs;
