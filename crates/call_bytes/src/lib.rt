//! What a system call reads of its caller's memory, and what it writes into it.
//!
//! What may stand here: the bytes of a call by the table of what its caller owns. What may not: files, processes, and what
//! the call does.
#![tactic(auto)]

mod laws;
mod output;
mod reading;
mod string_lists;
mod strings;
mod unread;

pub use laws::strings_law;
pub use output::{got_len, put, stray_got};
pub use reading::{read_range, read_sent};
pub use string_lists::ProgramStrings;
pub use strings::{at_zero, program_strings};
pub use unread::Unread;
