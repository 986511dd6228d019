//! The manifest so far.

use crate::manifest::{Dump, Item, Start, WatchLine};
use quantum_sched::Quantum;

/// What the lines so far have said.
#[derive(Drop)]
pub(crate) struct Draft {
    pub pages: Option<u32>,
    pub items: Vec<Item>,
    pub starts: Vec<Start>,
    pub quanta: Vec<Quantum>,
    pub count: Option<u32>,
    pub dumps: Vec<Dump>,
    pub watches: Vec<WatchLine>,
}
