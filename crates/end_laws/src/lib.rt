//! How a process ends, by its own exit or trap, which is that of its program alone; and what is written to the console.
//!
//! What may stand here: laws over the notes of ends and of calls, and over stays. What may not: any code that runs a program.
#![tactic(auto)]

mod laws;

pub use laws::{console_in_memory_law, console_law, end_law};
