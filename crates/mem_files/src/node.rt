//! What a node is.

/// What a node is.
#[derive(Clone, Copy, PartialEq, Eq)]
pub enum Node {
    /// A folder.
    Dir,
    /// A file.
    File,
}
