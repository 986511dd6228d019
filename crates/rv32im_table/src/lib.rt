//! The instruction table of RV32IM with Zifencei: a word to its instruction, and the immediates of the
//! five formats, read and replaced.
//!
//! Here stands what the bits of one word say. No registers, no memory and no execution.
#![tactic(auto)]

mod field;
mod immediate;
mod instr;
mod table;

pub use immediate::{imm_b, imm_i, imm_j, imm_s, imm_u, set_b, set_i, set_j, set_s, set_u};
pub use instr::Instr;
pub use table::decode;
