//! What Linux's own loader does with flat files, as a definition, and the law that it leaves the image.
//!
//! What may not stand here: any code that loads a file.
#![tactic(auto)]

mod laws;

pub use laws::flat_files_load;
