//! The program `flatc`: its arguments, its two pages and its exit status.
//!
//! What a command does stands in `suite_top` and `file_commands`, which has every text of a command but a run's report; the real
//! files and streams stand in `host_io`.
#![tactic(auto)]

mod pages;
mod program;

use host_io::{ErrSink, FolderHost, OutSink, StreamSink};
use page_runs::{Chooser, Kind, Run, best_fit, first_fit, last_fit};
use program::{Choices, end, read_arguments};
use std::process;
use std::process::ExitCode;
use suite_top::{Placements, Points};
use watch_points::{PointKind, Span, WatchPoint, touches, within};

fn main(rt: HostRuntime) -> ExitCode {
    let alloc = rt.alloc();
    let arguments = read_arguments(&rt);
    let mut out: OutSink = StreamSink::new(rt.stdout());
    let mut report: ErrSink = StreamSink::new(rt.stderr());
    let number = process::id(rt.process());
    let mut host = FolderHost::new(rt, "flatc", number);
    let place = Placements {
        first: Chooser::new(Kind::First, |runs: &[Run], need: u32| first_fit(runs, need)),
        best: Chooser::new(Kind::Best, |runs: &[Run], need: u32| best_fit(runs, need)),
        last: Chooser::new(Kind::Last, |runs: &[Run], need: u32| last_fit(runs, need)),
    };
    let points = Points {
        touch: WatchPoint::new(
            PointKind::Touch,
            |spans: &[Span], addr: u32, len: u32| touches(spans, addr, len),
        ),
        within: WatchPoint::new(
            PointKind::Within,
            |spans: &[Span], addr: u32, len: u32| within(spans, addr, len),
        ),
    };
    end(
        alloc,
        arguments,
        &mut host,
        &mut out,
        &mut report,
        &Choices { place, points },
    )
}
