//! From a linked ELF file to the one flat file that it becomes: the recorded words, the image, the
//! conversion, and the laws over these. What may not stand here: a host, a text for users, and anything that
//! runs a program.
#![tactic(auto)]

mod by_place;
mod collect;
mod conversion;
mod cover;
mod covering;
mod entry_word;
mod every;
mod fault;
mod found;
mod image;
mod laws;
mod met;
mod noted;
mod noting;
mod overlap;
mod overlapping;
mod placed;
mod places;
mod refusal;
mod rows;
mod slide;
mod sliding;
mod target;
mod walk;
mod word;

pub use conversion::{convert, flat_file, flat_file_in_place};
pub use every::faults;
pub use fault::Fault;
pub use laws::{first_fault_law, flat_law, image_law, linux_law, nothing_else_law};
pub use refusal::Refusal;
