//! Who waits in a run does so for what would make it wait again.
//!
//! What may stand here: what holds of all processes that wait, and laws over it. What may not: any code that runs a program, and
//! physical memory.
#![tactic(auto)]

mod laws;

pub use laws::waits_law;
