//! Ranges that are watched.

ghost use Rattle.std.specs.Prelude.{◌≡◌};
ghost use Rattle.mmap_rules.specs.Space.{all_pass};
ghost use Rattle.watch_points.specs.declared.point.PointKind.TheVariants.{Touch, Within};
ghost use Rattle.watch_points.specs.Points.{any_pass, in_span, hit};

/// `len` bytes from `addr` on.
#[derive(Clone, Copy, PartialEq, Eq)]
pub struct Span {
    pub addr: u32,
    pub len: u32,
}

/// Whether one of the `len` bytes at `addr` is in the span.
#[tactic(auto, using(crate::proofs::Spans::meets_is))]
fn meets(span: Span, addr: u32, len: u32) -> bool
    ensures { result ≡ any_pass (in_span span) addr len }
{
    let end = u64::from(addr) + u64::from(len);
    let span_end = u64::from(span.addr) + u64::from(span.len);
    len > 0 && span.len > 0 && u64::from(addr) < span_end && u64::from(span.addr) < end
}

/// Whether all of the `len` bytes at `addr` are in the span.
#[tactic(auto, using(crate::proofs::Spans::holds_is))]
fn holds(span: Span, addr: u32, len: u32) -> bool
    ensures { result ≡ all_pass (in_span span) addr len }
{
    let end = u64::from(addr) + u64::from(len);
    let span_end = u64::from(span.addr) + u64::from(span.len);
    len == 0 || span.addr <= addr && end <= span_end
}

/// Whether one of the `len` bytes at `addr` is in a span.
#[tactic(auto, unfolding(crate::specs::Points::hit))]
pub fn touches(spans: &[Span], addr: u32, len: u32) -> bool
    ensures { result ≡ hit Touch spans.now addr len }
{
    spans.iter().any(|span| meets(*span, addr, len))
}

/// Whether all of the `len` bytes at `addr` are in one span.
#[tactic(auto, unfolding(crate::specs::Points::hit))]
pub fn within(spans: &[Span], addr: u32, len: u32) -> bool
    ensures { result ≡ hit Within spans.now addr len }
{
    spans.iter().any(|span| holds(*span, addr, len))
}
