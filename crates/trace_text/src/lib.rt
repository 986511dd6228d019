//! The trace of a run: a line for each system call, as strace writes one, and how often each call was made. Here stand the
//! numbers, names and argument forms of the calls, the names of errors, and the texts that are made of notes. No machine, no
//! command and no rule of any call.
#![tactic(auto)]

mod call;
mod count;
mod counting;
mod error;
mod form;
mod laws;
mod lines;
mod texts;

pub use call::Call;
pub use count::Count;
pub use counting::{count_line, counts};
pub use form::Form;
pub use laws::{lines_law, numbers_law};
pub use lines::line;
pub use texts::trace_texts;
