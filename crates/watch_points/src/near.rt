//! The addresses near what is watched.

ghost use Rattle.std.specs.Prelude.{◌≡◌};
ghost use Rattle.watch_points.specs.Near.{HasBounds, IsNear, near_to};
ghost use Rattle.watch_points.specs.Points.{AreSpans};

use crate::span::Span;

/// The addresses from `low` on, up to the one that is `last` above it. An access of up to 4 bytes that hits
/// begins at one of them.
#[derive(Clone, Copy, PartialEq, Eq)]
pub struct Near {
    low: u32,
    last: u32,
}

impl Near {
    /// From 3 below the lowest span on, up to the last byte of the highest.
    pub fn of(spans: &[Span]) -> Near
        requires { AreSpans spans.now }
        ensures near { IsNear result spans.now }
        ensures bounds { HasBounds result spans.now }
    {
        let mut low = u32::MAX;
        let mut top = 0_u32;
        for span in spans {
            low = low.min(span.addr);
            top = top.max(span.addr + (span.len - 1));
        }
        let low = low.saturating_sub(3);
        Near {
            low,
            last: top.saturating_sub(low),
        }
    }

    /// Whether an access whose first byte is at `addr` is near.
    #[inline]
    pub fn has(self, addr: u32) -> bool
        ensures { result ≡ near_to self addr }
    {
        addr.wrapping_sub(self.low) <= self.last
    }
}
