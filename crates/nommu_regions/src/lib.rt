//! Regions of the machine's memory: contiguous runs of pages with counts of their uses.
//!
//! What may stand here: which pages a region has, where it comes from, how often it is used, and that a
//! new one is cleared. What may not: who maps a region, which of its bytes a program may touch, calls of
//! programs. Only `Regions::new` takes memory of the host.
#![tactic(auto)]

mod region;
mod regions;

pub use region::{Region, Source};
pub use regions::Regions;
