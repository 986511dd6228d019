//! The manifest of a run: a text of lines, read whole or refused with its first fault. Here stand the manifest's values,
//! the reading of its lines, and the faults. No file is loaded, and no path is looked up.
#![tactic(auto)]

mod draft;
mod drafting;
mod fault;
mod first_word;
mod keyword;
mod laws;
mod line;
mod manifest;
mod numbers;
mod paths;
mod pieces;
mod reading;
mod spoken;

pub use fault::{ManifestFault, ManifestRefusal};
pub use laws::reasonable_law;
pub use manifest::{Dump, Item, ItemKind, Manifest, Start, WatchLine};
pub use reading::{read, read_tree};
