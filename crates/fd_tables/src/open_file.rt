//! An open file, and the descriptors that share it.

/// What an open file is of.
#[derive(Clone, Copy)]
pub enum Object {
    /// The node of this number.
    File(u32),
    /// An end of the pipe of this number: the one that its way says.
    PipeEnd(u32),
}

/// An open file: POSIX calls it an open file description.
#[derive(Clone, Copy)]
pub struct OpenFile {
    pub object: Object,
    pub read: bool,
    pub write: bool,
    /// Each write goes to the file's end.
    pub append: bool,
    /// The position, in bytes, and of a folder in entries. That of a pipe's end means nothing.
    pub at: u64,
    /// How many descriptors share it.
    pub uses: u64,
}

/// What a descriptor stands for.
#[derive(Clone, Copy)]
pub enum Handle {
    /// The console's input.
    Input,
    /// The console's output.
    Output,
    /// The open file of this number.
    Open(u32),
}

/// A descriptor.
#[derive(Clone, Copy)]
pub struct Descriptor {
    pub handle: Handle,
    /// It closes at an execve.
    pub cloexec: bool,
}
