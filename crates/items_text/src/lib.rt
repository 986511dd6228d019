//! The items of a space: what its processes asked of the system and what came back, as one text and read from it. Here stand
//! the items, the grammar of their text, and both ways between them. No memory, no program and no replay.
#![tactic(auto)]

mod calls;
mod fault;
mod heads;
mod items;
mod laws;
mod pieces;
mod reading;
mod writing;

pub use fault::ItemsFault;
pub use items::{Item, Items};
pub use laws::{faults_law, lines_law};
pub use reading::items_read;
pub use writing::items_text;
