//! Tests of the crates of bytes and of the two file formats.
//!
//! What may stand here: test modules alone. What may not: anything that another crate calls.
//! They stand apart so that those crates aren't proved a second time with them.
#![tactic(auto)]

#[cfg(test)]
mod elf_tests;
#[cfg(test)]
mod flat_tests;
#[cfg(test)]
mod layout_tests;
#[cfg(test)]
mod made_tests;
#[cfg(test)]
mod number_tests;
#[cfg(test)]
mod refusal_tests;
#[cfg(test)]
mod reloc_tests;
#[cfg(test)]
mod sample;
