//! A process of the one memory as a core file.
//!
//! What may stand here: which of its space's bytes are copied, and what is told of it. What may not: when a
//! process falls, and the text of a core file.
#![tactic(auto)]

mod bytes;
mod interval;
mod process;
mod walk;

pub use process::core_of_process;
