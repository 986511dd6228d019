//! What a descriptor shows.

/// What a descriptor leads to.
#[derive(Clone, Copy)]
pub enum Target {
    /// The console.
    Console,
    /// The node of this number.
    Node(u32),
    /// The reading end of the pipe of this number, or its writing end.
    Pipe { id: u32, write: bool },
}

/// What may be done through a descriptor.
#[derive(Clone, Copy)]
pub struct Way {
    pub read: bool,
    pub write: bool,
    /// Each write goes to the file's end.
    pub append: bool,
    /// The descriptor closes at an execve.
    pub cloexec: bool,
}

/// A descriptor that is open.
#[derive(Clone, Copy)]
pub struct View {
    pub target: Target,
    pub way: Way,
    /// The position, in bytes, and of a folder in entries; 0 for the console and for a pipe.
    pub at: u64,
}
