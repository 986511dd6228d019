//! Tests of the table of instructions and of the processor.
//!
//! What may stand here: test modules alone. What may not: anything that another crate calls.
//! They stand apart so that `rv32im_table` and `rv32im_step` aren't proved a second time with them.
#![tactic(auto)]

#[cfg(test)]
mod step_tests;
#[cfg(test)]
mod table_tests;
