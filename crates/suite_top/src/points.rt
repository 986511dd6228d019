//! The watch points of the two kinds of hit.

use watch_points::WatchPoint;

/// A watch point for each kind that `--watch` names. That they are of these kinds, and that each answers its
/// kind, is no part of the type: each call that takes them has it as a condition (`ArePoints`).
#[derive(Drop)]
pub struct Points<P, Q> {
    /// Of the kind Touch.
    pub touch: WatchPoint<P>,
    /// Of the kind Within.
    pub within: WatchPoint<Q>,
}
