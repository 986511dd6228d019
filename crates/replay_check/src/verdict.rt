//! How a replay ends.

/// How far a program goes by itself as items tell.
#[derive(Clone, Copy, PartialEq, Eq)]
pub enum Verdict {
    /// The items are a run of the program by itself.
    Yes,
    /// They aren't: `item` is one more than the number of items that were used, and `events` events were done before.
    No { item: u64, events: u64 },
}
