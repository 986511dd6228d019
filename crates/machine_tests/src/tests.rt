//! The machine, and a call behind a stray access.

mod machine;
mod noted;
