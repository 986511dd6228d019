//! What a manifest says of the run itself.

use manifest_text::{Dump, WatchLine};
use quantum_sched::Quantum;

/// The lines of a manifest by which its machine runs, and what is shown of the run.
#[derive(Drop)]
pub(crate) struct Course {
    pub quanta: Vec<Quantum>,
    /// How often the quanta are gone through.
    pub repeat: u32,
    pub watches: Vec<WatchLine>,
    pub dumps: Vec<Dump>,
}
