//! What a pipe shows.

/// How much a pipe holds, and which of its ends are open.
#[derive(Clone, Copy)]
pub struct PipeView {
    /// In bytes, at most 65,536.
    pub held: u32,
    pub read_open: bool,
    pub write_open: bool,
}

/// The descriptors of a pipe's ends.
#[derive(Clone, Copy, PartialEq, Eq)]
pub struct Ends {
    pub read: u32,
    pub write: u32,
}
