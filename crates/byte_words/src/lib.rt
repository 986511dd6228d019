//! What bytes are, below all formats and machines: numbers in bytes, in either order; bytes by number,
//! and what is laid over them; bytes by address, and accesses to them.
//!
//! What may stand here: definitions that name no format, no instruction and no file, their laws, and
//! the reading of a number at an offset. What may not: anything that knows why the bytes are there.
#![tactic(auto)]

mod access;
mod numbers;

pub use access::{Access, AccessKind};
pub use numbers::{big_word, byte, half, word};
