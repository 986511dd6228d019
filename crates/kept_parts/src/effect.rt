//! What a call does that touches neither files nor memory.

/// What a call does that the process lives after.
#[derive(Clone, Copy, PartialEq, Eq)]
pub enum Effect {
    /// It is answered so.
    Answer(u32),
    /// The turn ends.
    Yield,
    /// The break is asked to go to this address.
    Break(u32),
}
