//! Whether items of calls tell of a run of one program by itself.
//!
//! What may stand here: one program's memory, its processes, its instructions, and its calls as items tell of them. What may
//! not: other programs, files, free pages, and turns.
#![tactic(auto)]

mod beginning;
mod fault;
mod laws;
mod lone;
mod maps;
mod memory;
mod original;
mod program;
mod ranges;
mod replaying;
mod step;
mod verdict;

pub use fault::ReplayFault;
pub use laws::verdict_law;
pub use original::Original;
pub use program::replay;
pub use verdict::Verdict;
