//! What an image says.

/// A node's kind.
#[derive(Clone, Copy, PartialEq, Eq)]
pub enum RomKind {
    Dir,
    File,
}

/// A file or a folder. It borrows its bytes, so that hard links to one file take no copies, and has its
/// folder in place of its path, which could be as long as the image.
#[derive(Clone, Copy)]
pub struct RomNode<'a> {
    /// The number of its folder: 0 for the root, else that of the folder among the nodes, from 1.
    pub parent: u32,
    pub name: &'a [u8],
    pub kind: RomKind,
    /// A file's; a folder has none.
    pub bytes: &'a [u8],
    /// Whether the executable bit is set.
    pub exec: bool,
}
