//! The choosers of the three placements.

use page_runs::Chooser;

/// A chooser for each placement that `--place` names. That they are of these kinds, and that each answers
/// its placement, is no part of the type: each call that takes them has it as a condition (`ArePlacements`).
#[derive(Drop)]
pub struct Placements<A, B, C> {
    /// Of the kind First.
    pub first: Chooser<A>,
    /// Of the kind Best.
    pub best: Chooser<B>,
    /// Of the kind Last.
    pub last: Chooser<C>,
}
