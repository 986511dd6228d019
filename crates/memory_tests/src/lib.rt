//! Tests of memory: free runs, bytes, regions, spaces with their mappings, what a program may touch, and loads.
//!
//! What may stand here: test modules alone. What may not: anything that another crate calls.
//! They stand apart so that these crates aren't proved a second time with them.
#![tactic(auto)]

#[cfg(test)]
mod tests;
