//! Definitions of the crates below, computed on worked examples.
//!
//! What may stand here: samples, as lemmas over definitions. What may not: any code, and any definition that another crate cites.
//! They stand apart so that what they speak of isn't proved anew when a sample comes.
#![tactic(auto)]
