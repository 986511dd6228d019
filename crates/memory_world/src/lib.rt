//! A run that goes on after its first stray access.
#![tactic(auto)]

mod laws;

pub use laws::{
    counts_in_memory_law, instructions_in_law, longer_runs_in_law, notes_remain_law,
    physical_programs_law, shown_law, wider_law,
};
