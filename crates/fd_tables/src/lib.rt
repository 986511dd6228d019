//! Who has which file open: tables of descriptors, the open files that they share, pipes, and the console's input.
//!
//! What may stand here: descriptors, open files with their positions, and how they come and go. What may not: paths, the bytes
//! of files, and the processes that the tables belong to.
#![tactic(auto)]

mod calls;
mod fault;
mod files;
mod laws;
mod open_file;
mod pipe;
mod pipe_view;
mod pipes;
mod places;
mod shares;
mod shows;
mod table;
mod tables;
mod view;

pub use fault::FdFault;
pub use files::Files;
pub use laws::counts_law;
pub use pipe::MOST_HELD;
pub use pipe_view::{Ends, PipeView};
pub use view::{Target, View, Way};
