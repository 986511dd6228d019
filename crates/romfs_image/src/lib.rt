//! romfs images (Linux, filesystems/romfs.rst): what an image says, which images are refused and why.
//!
//! What may stand here: the format's definitions, its reader, and laws on these. No manifest, no tree of a
//! machine and no text for users.
#![tactic(auto)]

mod fault;
mod header;
mod kind;
mod laws;
mod level;
mod links;
mod making;
mod node;
mod paths;
mod place;
mod rom;
mod walk;

pub use fault::{MakeFault, RomFault};
pub use laws::{dots_lead, steps_suffice, text_reads};
pub use making::make;
pub use node::{RomKind, RomNode};
pub use paths::{names_up, push_path};
pub use rom::Rom;
