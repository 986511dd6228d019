//! Tests of the machine.
//!
//! What may stand here: test modules alone. What may not: anything that another crate calls.
//! They stand apart so that the machine's crate isn't proved a second time with them.
#![tactic(auto)]

#[cfg(test)]
mod tests;
