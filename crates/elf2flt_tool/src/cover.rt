//! Which bytes of text and data belong to relocations.

/// How many relocations have a byte of text and data as their own: none, one, or more. There are counts up to the highest
/// byte that needs one, and some behind it; of further bytes none is counted.
#[derive(Drop)]
pub struct Cover {
    /// How many bytes text and data have.
    pub len: usize,
    /// How many spans that aren't recorded have the byte: 0, 1, or 2 for more than one.
    pub still: Vec<u8>,
    /// How many recorded words begin at the byte: 0, 1, or 2 for more than one.
    pub words: Vec<u8>,
}
