//! Each process of a run does what its own program does alone under the same replies.
//!
//! What may stand here: stays, what holds of every world, and laws over these. What may not: any code that runs a program, and
//! physical memory.
#![tactic(auto)]

mod laws;

pub use laws::{sound_law, stays_law};
