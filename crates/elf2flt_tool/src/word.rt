//! Recorded words.

/// A word that a flat file records, by numbers of the image.
#[derive(Clone, Copy)]
pub struct Word {
    /// The number of its first byte.
    pub place: u32,
    /// The number of the byte that it points to.
    pub target: u32,
}
