//! The items of the space that a run records: its program by the recording, its calls by the notes, and what its mappings of files
//! brought by the recording again.
//!
//! What may stand here: who is in a space after some notes, copies of what the notes hold, and laws of the items. What may not: any code
//! that runs a program or writes a text.
#![tactic(auto)]

mod copies;
mod follower;
mod laws;
mod members;
mod recorded;

pub use laws::kept_items_law;
pub use recorded::recorded_items;
