//! Where a file records words.

/// What the conversion keeps of the walk over the relocations.
#[derive(Drop)]
pub struct Placed {
    /// The numbers at which recorded words begin, ascending and distinct.
    pub places: Vec<u32>,
    /// The lowest of them whose word meets the bytes of another relocation.
    pub met: Option<u32>,
}
