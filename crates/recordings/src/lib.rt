//! What a run records of one space beside its log: its program, how many events were made in it, and what its mappings of files
//! brought. Here stands the recording. No memory, no process and no file.
#![tactic(auto)]

mod recording;

pub use recording::{Launch, Recording};
