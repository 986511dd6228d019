//! Calls of one number, counted.

/// Of the calls of one number: how many there were, and what they moved. A sum stands still at its type's end.
#[derive(Clone, Copy, PartialEq, Eq)]
pub struct Count {
    /// From a7.
    pub number: u32,
    pub calls: u64,
    /// How many had an error for a reply.
    pub errors: u64,
    /// In bytes.
    pub sent: u64,
    /// In bytes.
    pub got: u64,
}
