//! The numbers at the front of a line.

/// Those of the first line.
#[derive(Clone, Copy)]
pub(crate) struct SpaceHead {
    pub stack: u32,
    pub base: u32,
    pub pid: u32,
    pub events: u64,
}

/// Those of a call's line.
#[derive(Clone, Copy)]
pub(crate) struct CallHead {
    pub pid: u32,
    pub call: u32,
    pub args: [u32; 6],
    pub reply: u32,
}
