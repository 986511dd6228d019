//! A replay says yes to the items that a run records, over the file of the program that their load note names.
//!
//! What may stand here: which file each program of a manifest is made of, and laws over runs, their stays and a replay's verdict. What may
//! not: any code that runs a program.
#![tactic(auto)]

mod laws;

pub use laws::{accepted_items_law, files_law};
