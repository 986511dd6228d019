//! The system calls on files: what each changes in the tree, the open files and the console, or what bytes it gives.
//!
//! What may stand here: one call over these three. What may not: the memory of a process, its registers, and the log.
#![tactic(auto)]

mod call;
mod changes;
mod descriptors;
mod flags;
mod listing;
mod opening;
mod outcome;
mod outputs;
mod paths;
mod piece;
mod piping;
mod reading;
mod records;
mod seeking;
mod waiting;
mod writing;

pub use call::Call;
pub use changes::change;
pub use outcome::{Outcome, Then};
pub use outputs::output;
pub use waiting::wait_of;
