//! The closures of the placements and of the watch points: how often each is asked.
use super::*;
use std::cell::Cell;

/// How often the closures of First, Best, Last, Touch and Within are asked in this call, and whether it ends as Done.
fn asked_in(
    alloc: Global,
    words: &[&str],
    host: &mut MemHost,
) -> Result<([u32; 5], bool), AllocError> {
    let arguments = arguments_of(alloc, words)?;
    let mut out = MemSink::new(alloc)?;
    let mut report = MemSink::new(alloc)?;
    let first = Cell::new(0u32);
    let best = Cell::new(0u32);
    let last = Cell::new(0u32);
    let touch = Cell::new(0u32);
    let inside = Cell::new(0u32);
    let place = Placements {
        first: Chooser::new(Kind::First, |runs: &[Run], need: u32| {
            first.set(first.get().saturating_add(1));
            first_fit(runs, need)
        }),
        best: Chooser::new(Kind::Best, |runs: &[Run], need: u32| {
            best.set(best.get().saturating_add(1));
            best_fit(runs, need)
        }),
        last: Chooser::new(Kind::Last, |runs: &[Run], need: u32| {
            last.set(last.get().saturating_add(1));
            last_fit(runs, need)
        }),
    };
    let points = Points {
        touch: WatchPoint::new(PointKind::Touch, |spans: &[Span], addr: u32, len: u32| {
            touch.set(touch.get().saturating_add(1));
            touches(spans, addr, len)
        }),
        within: WatchPoint::new(PointKind::Within, |spans: &[Span], addr: u32, len: u32| {
            inside.set(inside.get().saturating_add(1));
            within(spans, addr, len)
        }),
    };
    let status = suite(
        alloc,
        &arguments,
        host,
        &mut out,
        &mut report,
        &place,
        &points,
    );
    Ok((
        [
            first.get(),
            best.get(),
            last.get(),
            touch.get(),
            inside.get(),
        ],
        status == Status::Done,
    ))
}

/// Three starts, of which each asks the closure of its placement, and no other; and so the 64 of the demo.
#[test]
fn the_given_closure_is_asked(rt: HostRuntime) -> Result<(), Fail> {
    let alloc = rt.alloc();
    let manifest =
        "memory 6\nelf /hi hi.elf\nstart /hi\nstart /hi\nstart /hi\nquanta 0:100 0:100 0:100\n";
    let mut host = host_with_files(alloc, manifest)?;
    let (last, done) = asked_in(alloc, &["run", "m", "--place", "last"], &mut host)?;
    assert!(rt;
        done && last[0] == 0 && last[1] == 0 && last[2] >= 3,
        "{last:?}"
    );
    let (first, done) = asked_in(alloc, &["demo", "64"], &mut host)?;
    assert!(rt;
        done && first[0] >= 64 && first[1] == 0 && first[2] == 0,
        "{first:?}"
    );
    Ok(())
}

/// A load of what is watched, of which the closure of its kind is asked, and the other one isn't; and neither where no hits are told.
#[test]
fn the_given_watch_point_is_asked(rt: HostRuntime) -> Result<(), Fail> {
    let alloc = rt.alloc();
    let manifest = "memory 4\nelf /hi hi.elf\nstart /hi\nquanta 0:100\nwatch 0x800000a8 4\n";
    let mut host = host_with_files(alloc, manifest)?;
    let (touch, done) = asked_in(alloc, &["run", "m", "--watch", "touch"], &mut host)?;
    assert!(rt; done && touch[3] >= 1 && touch[4] == 0, "{touch:?}");
    let (inside, done) = asked_in(alloc, &["run", "m", "--watch", "within"], &mut host)?;
    assert!(rt; done && inside[3] == 0 && inside[4] >= 1, "{inside:?}");
    let (none, done) = asked_in(alloc, &["run", "m"], &mut host)?;
    assert!(rt; done && none[3] == 0 && none[4] == 0, "{none:?}");
    Ok(())
}
