//! Mappings: Linux, "No-MMU memory mapping support".

use nommu_regions::Source;

/// Addresses that a process may use. A range that is anonymous can be cut.
#[derive(Clone, Copy)]
pub struct Range {
    /// The first address.
    pub from: u32,
    /// In bytes.
    pub size: u32,
    pub writes: bool,
    pub anonymous: bool,
}

/// A run of whole pages that is held, and the range of it that is the process's own.
#[derive(Clone, Copy)]
pub struct Mapping {
    /// The first page of the run; page 0 is the first one of memory.
    pub first: u32,
    pub pages: u32,
    pub range: Range,
    pub source: Source,
}
