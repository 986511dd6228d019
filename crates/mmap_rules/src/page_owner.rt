//! What a space owns of a page.

/// What a space owns of one page.
#[derive(Clone, Copy, PartialEq, Eq)]
pub struct PageOwner {
    /// The first of the page's bytes that is own, if any is; all behind it are.
    pub from: u32,
    /// They may be written.
    pub write: bool,
    /// How many of the space's mappings have own bytes there.
    pub uses: u32,
}
