//! A closure that tells which accesses hit.

ghost use Rattle.std.specs.Prelude.{◌≡◌};
ghost use Rattle.watch_points.specs.Points.{Answers, AreSpans, IsPoint, IsShort, hit, kind_of_point};

use crate::span::Span;

/// When an access hits: where one of its bytes is in a span, or where all of them are in one span.
#[derive(Clone, Copy, PartialEq, Eq, Drop)]
pub enum PointKind {
    Touch,
    Within,
}

/// A kind with a closure that answers it. That the closure does is no part of the type: `new` has it as a
/// condition and ensures it of the watch point, and each call that takes one has it as a condition.
#[derive(Drop)]
pub struct WatchPoint<F> {
    kind: PointKind,
    pick: F,
}

impl<F: Fn(&[Span], u32, u32) -> bool> WatchPoint<F> {
    /// A watch point by a closure that answers `hit` of this kind.
    pub fn new(kind: PointKind, pick: F) -> WatchPoint<F>
        requires { Answers F.pre F.post kind pick }
        ensures point { IsPoint F.pre F.post result }
        ensures kind { kind_of_point result ≡ kind }
    {
        WatchPoint { kind, pick }
    }

    /// When an access hits.
    pub fn kind(&self) -> PointKind
        ensures { result ≡ kind_of_point self.now }
    {
        self.kind
    }

    /// Whether the `len` bytes at `addr` hit.
    pub fn asks(&self, spans: &[Span], addr: u32, len: u32) -> bool
        requires point { IsPoint F.pre F.post self.now }
        requires spans { AreSpans spans.now }
        requires range { IsShort addr len }
        ensures { result ≡ hit (kind_of_point self.now) spans.now addr len }
    {
        (self.pick)(spans, addr, len)
    }
}
