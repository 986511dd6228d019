//! What a program may touch: a bus over physical memory that knows every stray access, and the loop of
//! instructions over it.
//!
//! What may stand here: the test of an access against one table of own bytes, what becomes of one that
//! strays, and the instructions of one program up to the first that isn't carried out. What may not: mappings,
//! system calls, processes, and whose turn it is. Nothing here takes memory of the host.
#![tactic(auto)]

mod instructions;
mod laws;
mod mode;
mod watch;

pub use instructions::{Progress, run_steps};
pub use laws::{others_law, passed_law};
pub use mode::Mode;
pub use watch::{Watch, Window};
