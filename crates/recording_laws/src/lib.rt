//! What a run records of one space, with its notes, is the stay of that space.
//!
//! What may stand here: in which space a call was made, the items of the space that is recorded, and laws over these. What may not:
//! any code that runs a program.
#![tactic(auto)]

mod laws;

pub use laws::items_law;
