//! A run of pages.

/// `count` pages from page `first` on. Page 0 is the first page of memory.
#[derive(Clone, Copy, PartialEq, Eq, Drop)]
pub struct Run {
    pub first: u32,
    pub count: u32,
}
