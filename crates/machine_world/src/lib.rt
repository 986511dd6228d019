//! What a run of several programs must do, as definitions over worlds in which every program has a private
//! space of its own.
//!
//! What may stand here: worlds, events, turns, the opening world, and laws over these. What may not: any
//! code that runs a program, and physical memory.
#![tactic(auto)]

mod laws;

pub use laws::{
    ages_law, counts_law, instructions_law, longer_runs_law, marks_law, open_files_law, others_law,
    placement_law, programs_law, refused_calls_law,
};
