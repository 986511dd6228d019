//! Which replies of system calls are refusals, what those leave, and which refusals are for want of a free run.
//!
//! What may stand here: worlds in which no reply but a refusal is an errno, and laws over refusals. What may not: any code that
//! runs a program, and physical memory.
#![tactic(auto)]

mod laws;

pub use laws::{enomem_law, no_run_law, numbers_law, refusals_law, regular_law};
