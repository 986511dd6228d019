//! Where the walk over an image goes on, and what it finds.

use crate::header::Header;

/// A position where the walk goes on.
#[derive(Clone, Copy)]
pub struct Level {
    pub at: u32,
    /// The number of the folder there: 0 for the root, else that of its entry, from 1.
    pub folder: u32,
}

/// A header that isn't passed over.
#[derive(Clone, Copy)]
pub struct Entry<'a> {
    /// The number of its folder.
    pub folder: u32,
    pub at: u32,
    pub header: Header<'a>,
}
