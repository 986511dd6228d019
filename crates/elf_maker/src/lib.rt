//! Writes linked ELF32 executables for RV32 with the relocations that a linker left, for tests.
//!
//! What may stand here: how a file is laid, from its sections, symbols and relocations, and the programs of
//! the demo. What may not: what a relocation means.
#![tactic(auto)]

mod given;
mod making;
mod numbers;
mod programs;
mod tables;
mod writer;

pub use given::{MakeRela, MakeSymbol, Part};
pub use making::make;
pub use programs::demo;
