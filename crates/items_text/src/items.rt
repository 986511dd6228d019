//! What a space's processes asked of the system, and what came back.

use call_log::Entry;

/// A call as it was answered.
#[derive(Drop)]
pub struct Item {
    pub entry: Entry,
    /// The bytes that its mapping of a file brought into the space, whole pages of them; empty for any other call.
    pub brought: Vec<u8>,
}

/// What is known of a space, from its program's load to its last event.
#[derive(Drop)]
pub struct Items {
    /// The bytes of stack of its program.
    pub stack: u32,
    /// The first address of its program's block.
    pub base: u32,
    /// The process that the program was loaded for.
    pub pid: u32,
    /// The events in it: instructions, calls and traps.
    pub events: u64,
    /// The program's arguments, none of which has its zero at the end.
    pub args: Vec<Vec<u8>>,
    /// The strings of its environment, none of which has its zero at the end.
    pub env: Vec<Vec<u8>>,
    /// Its calls, in order.
    pub list: Vec<Item>,
}
