//! The system calls of a machine: which call is which, and what comes of it.
//!
//! What may stand here: the parts of a run, and one system call. What may not: what is kept of all programs and how it
//! changes, whose turn it is, how often, and what is written of a run.
#![tactic(auto)]

mod answer;
mod call;
mod classes;
mod effects;
mod family;
mod laws;
mod parts;
mod want;

pub use answer::serve;
pub use laws::call_event_law;
pub use parts::Parts;
