//! What is noted of the kept relocations for all faults.

use crate::cover::Cover;
use crate::entry_word::EntryWord;
use crate::fault::Fault;

/// What a walk over the kept relocations leaves, whether they have faults or not.
#[derive(Drop)]
pub struct Noted {
    /// The faults of the layout, and those of the entries by themselves.
    pub faults: Vec<Fault>,
    /// The words of the other entries, the sound ones, that point outside.
    pub outside: Vec<EntryWord>,
    /// Which bytes belong to the sound ones.
    pub cover: Cover,
}
