//! Of which process of a run a core file is, and what it says of it.
//!
//! What may stand here: the segments of a private space, the processes that fall along the turns of a run, and
//! laws of these. What may not: any code that runs a program, and physical memory.
#![tactic(auto)]

mod laws;

pub use laws::cores_law;
