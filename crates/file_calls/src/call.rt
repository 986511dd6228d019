//! A system call, as a process makes it.

/// Who calls, with which number and arguments, and the bytes that the call read.
#[derive(Drop)]
pub struct Call {
    pub pid: u32,
    /// The pid of its parent, or 0.
    pub parent: u32,
    /// Its table of descriptors.
    pub table: u32,
    pub number: u32,
    pub args: [u32; 6],
    pub sent: Vec<u8>,
}
