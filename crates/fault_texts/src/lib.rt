//! What a user is told of the faults of an ELF file: sections and symbols by name, a line for each fault, and counts of them.
//!
//! What may stand here: texts of such a file and its faults. What may not: which faults it has, a host, or any command.
#![tactic(auto)]

mod count_lines;
mod counts;
mod entry;
mod kinds;
mod lines;
mod listings;
mod names;
mod sights;
mod subjects;
mod symbols;
mod words;

pub use counts::{Count, Subject, counts_of};
pub use entry::{EntryAt, entry_of};
pub use kinds::{Kind, push_kinds};
pub use lines::{
    push_head_line, push_header_line, push_layout_line, push_overlap_line, push_reloc_line,
    push_target_line,
};
pub use listings::listing;
pub use names::push_shown;
pub use sights::Sight;
pub use symbols::{push_home, push_section, push_symbol};
pub use words::{elf_fault_words, layout_fault_words, reloc_fault_words};
