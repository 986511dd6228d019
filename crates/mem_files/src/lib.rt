//! The files and folders of a machine, in memory: a tree of names, and the bytes of each file.
//!
//! What may stand here: nodes, their names and bytes, and the limits of all of them. What may not: who has a file open, and
//! what a process may do with it.
#![tactic(auto)]

mod content;
mod entries;
mod fault;
mod inode;
mod laws;
mod node;
mod paths;
mod place;
mod tree;

pub use fault::FileFault;
pub use laws::names_law;
pub use node::Node;
pub use paths::is_too_long;
pub use tree::{ROOT, Tree};
