//! One program's private space: its mappings, its break, and the table that says of each page of memory
//! which bytes are its own.
//!
//! What may stand here: what a space may use, and how mappings come and go. What may not: bytes of
//! memory, instructions, and the other processes.
#![tactic(auto)]

mod map_fault;
mod mapping;
mod maps;
mod owners;
mod page_owner;
mod pages;
mod space;
mod steps;
mod unmaps;
mod want;

pub use map_fault::MapFault;
pub use mapping::{Mapping, Range};
pub use maps::{fits, page_bytes};
pub use owners::Owners;
pub use page_owner::PageOwner;
pub use space::{Space, SpaceRoom};
pub use steps::Steps;
pub use want::{FileSide, MAP_ANONYMOUS, PROT_WRITE, Want, check_mmap2, pages_for};
