//! What the lines of a manifest bring into a run: files and folders, programs, and the console's input.
//!
//! What may stand here: the meaning of one line with its file, and the order of all. What may not: the loading of files from
//! a host, the machine, and texts.
#![tactic(auto)]

mod bringing;
mod fault;
mod program;

pub use bringing::{RunFiles, bring};
pub use fault::{LineFault, LineRefusal};
