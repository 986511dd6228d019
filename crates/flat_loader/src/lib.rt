//! Loads a flat program into a block of physical memory: header, image with its words linked, zeros, and
//! the start frame on the stack.
//!
//! What may stand here: the size of a program's block, its bytes after loading, its first registers, and
//! that it gets a region and a space of its own. What may not: which of the free runs a block gets, who
//! owns a byte, and what a program does once it runs. Only `load` takes memory of the host, for the table
//! of the space.
#![tactic(auto)]

mod block;
mod frame;
mod image;
mod laws;
mod loaded;
mod loading;

pub use block::{block_len, block_pages, stack_len};
pub use frame::{frame_fits, frame_len};
pub use laws::programs_begin;
pub use loaded::{LoadRefusal, Loaded};
pub use loading::{load, load_at};
