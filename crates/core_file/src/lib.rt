//! Core files (System V ABI, ELF32; Linux, `struct elf_prstatus`): one process at one moment as a debugger
//! opens it.
//!
//! What may stand here: the format's one text, its writing, and the law that it tells its parts. No memory of
//! a machine and no run: what is own and what may be written is asked elsewhere.
#![tactic(auto)]

mod laws;
mod process;
mod writing;

pub use laws::text_tells;
pub use process::{Core, Segment};
pub use writing::core_text;
