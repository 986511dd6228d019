//! The files and folders of a tree as the nodes of a romfs image, and the paths of an image's nodes.
//!
//! What may not stand here: the lines of a manifest, programs, and the bytes of an image.
#![tactic(auto)]

mod laws;
mod nodes;
mod paths;

pub use laws::lists_whole_tree;
pub use nodes::tree_nodes;
pub use paths::path_of;
