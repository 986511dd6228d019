//! What a line can say.

use crate::manifest::{Dump, Item, Start, WatchLine};
use quantum_sched::Quantum;

/// What a line says.
#[derive(Drop)]
pub(crate) enum Spoken {
    Nothing,
    Memory(u32),
    Item(Item),
    Start(Start),
    Quanta(Vec<Quantum>),
    Repeat(u32),
    Dump(Dump),
    Watch(WatchLine),
}
