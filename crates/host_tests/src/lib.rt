//! Tests of the outside of the program: hosts and sinks in memory, and those over real files and streams.
//!
//! What may stand here: test modules alone. What may not: anything that another crate calls.
#![tactic(auto)]

#[cfg(test)]
mod files;
#[cfg(test)]
mod loads;
#[cfg(test)]
mod memory;
#[cfg(test)]
mod streams;
