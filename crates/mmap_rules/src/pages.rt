//! The pages that a new mapping takes: a run of its own, or a part of a copy that is there.

use nommu_regions::Source;

/// A run of pages that is wanted.
#[derive(Clone, Copy)]
pub(crate) struct NewRun {
    pub(crate) pages: u32,
    pub(crate) writes: bool,
    pub(crate) anonymous: bool,
    pub(crate) source: Source,
}

/// Pages of the copy of this id, from the file's page `first` on.
#[derive(Clone, Copy)]
pub(crate) struct Part {
    pub(crate) copy: u32,
    pub(crate) first: u32,
    pub(crate) pages: u32,
}
