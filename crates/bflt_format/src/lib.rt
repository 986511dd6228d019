//! The flat format of uClinux, bFLT version 4: what a file says, which files are accepted, and the
//! one text that is written. Here stand the type `Flat` with its reader and writer, the definitions
//! of the format, and laws on these. No ELF, no memory of a machine and no text for users.
#![tactic(auto)]

mod fault;
mod flat;
mod header;
mod laws;
mod reading;
mod records;
mod writing;

pub use fault::FlatFault;
pub use flat::Flat;
pub use laws::{spells_come_back, texts_come_back};
