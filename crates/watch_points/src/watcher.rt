//! What a run is watched for.

use crate::point::WatchPoint;
use crate::span::Span;

/// What is watched, and when an access to it hits. Where there are no spans nothing is watched.
#[derive(Drop)]
pub struct Watcher<'a, F> {
    pub point: &'a WatchPoint<F>,
    pub spans: &'a [Span],
}
