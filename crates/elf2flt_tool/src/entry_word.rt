//! Recorded words with their entries.

/// The word that a relocation records, by its number in the image.
#[derive(Clone, Copy)]
pub struct EntryWord {
    /// The number of its first byte.
    pub place: u32,
    /// The section of the entry that records it.
    pub section: u32,
    /// The number of this entry there.
    pub index: u32,
}
