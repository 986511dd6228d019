//! Where the node of an image that is made stands.

/// Where a node stands, and what its headers name.
#[derive(Clone, Copy)]
pub struct Place {
    /// Its header.
    pub at: u32,
    /// The next header of its folder, or 0.
    pub next: u32,
    /// Its folder's header.
    pub parent: u32,
    /// The first header of its own list behind `.` and `..`, or 0.
    pub first: u32,
}
