//! A run that goes on is the run of private spaces, up to its first stray access.
//!
//! What may stand here: when one memory stands for a world of private spaces, and laws over it. What may not: any code that runs a
//! program.
#![tactic(auto)]

mod laws;

pub use laws::{go_on_law, marks_in_memory_law, own_bytes_law, refused_in_memory_law};
