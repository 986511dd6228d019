//! Tests of whole calls of `suite` that can't be told from outside the program.
//!
//! What may stand here: test modules alone. What may not: anything that another crate calls, and a call that a folder
//! of cases/ can have. They stand apart so that `suite_top` isn't proved a second time with them.
#![tactic(auto)]

#[cfg(test)]
mod tests;
