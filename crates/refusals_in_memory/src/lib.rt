//! Which replies of system calls over one memory are refusals, before a run's first stray access and behind it.
//!
//! What may stand here: what holds of the one memory of a run between its events, so that no reply but a refusal is an errno, and
//! laws over it. What may not: any code that runs a program.
#![tactic(auto)]

mod laws;

pub use laws::{enomem_in_memory_law, refusals_in_memory_law, regular_in_memory_law};
