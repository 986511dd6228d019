//! Tests of the log, the tree of files, open files, the list of processes, turns, and manifests.
//!
//! What may stand here: test modules alone. What may not: anything that another crate calls.
//! They stand apart so that these crates aren't proved a second time with them.
#![tactic(auto)]

#[cfg(test)]
mod tests;
