//! What is kept of a run: the notes of calls, loads, ends and stray accesses, the errors that calls are refused with,
//! and the line that each note is written as. Here stand these types, the limits of the log, the texts of its notes and the
//! numbers of the calls that are served.
//! No memory of a machine, no process list and no rule of any call.
#![tactic(auto)]

mod digits;
mod errno;
mod flags;
mod how;
mod laws;
mod lines;
mod log;
mod note;
pub mod numbers;

pub use digits::{push_bytes, push_decimal, push_word};
pub use errno::Errno;
pub use flags::has_flag;
pub use how::How;
pub use laws::refusals_are_words;
pub use lines::{kind_text, push_call_head, push_got, push_line, push_sent};
pub use log::{Log, LogFault};
pub use note::{Entry, Got, Note};

/// An access, and what it is for, as a note has them.
pub use byte_words::{Access as Seen, AccessKind as SeenKind};
