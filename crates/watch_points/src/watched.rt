//! The loop of instructions that tells what hits.

ghost use Rattle.std.specs.Prelude.{◌≡◌, ◌<◌, ◌^◌, None, IfSome};
ghost use Rattle.rv32im_step.specs.Parts.{registers};
ghost use Rattle.region_watch.specs.Watched.{KeepsWatch, StepsLeave, first_stray};
ghost use Rattle.watch_points.specs.Near.{Left, listed, told};
ghost use Rattle.watch_points.specs.Points.{IsShort, with_hits};
ghost use Rattle.watch_points.specs.Watchers.{IsWatcher, ComesOn, found_behind, watched_by};

use crate::hits::{Hit, Hits};
use crate::near::Near;
use crate::probed::Probed;
use crate::span::Span;
use crate::watcher::Watcher;
use region_watch::{Progress, Watch, run_steps};
use rv32im_step::{Access, RegisterFile, Regs, Stop, step_at};

/// How far a program came, and the access behind which it left the loop.
#[derive(Clone, Copy)]
struct NearRun {
    progress: Progress,
    seen: Option<Access>,
}

/// Carries out up to as many instructions as the bus lets follow, and leaves the loop behind the first that made a data access
/// near what is watched.
#[inline]
fn near_steps(pc: &mut u32, x: &mut RegisterFile, bus: &mut Probed<'_, Watch<'_>>) -> Progress
    requires fresh { bus.old.seen ≡ None }
    requires small { bus.old.end < 2 ^ 32 }
    ensures left { Left bus.old.end bus.old.bus.now.mode bus.old.bus.now.owners.now (registers pc.old x.old) bus.old.bus.now.mem.now (first_stray bus.old.bus.now) bus.old.near
        result.done result.stop (registers pc.new x.new) bus.new.bus.now.mem.now (first_stray bus.new.bus.now) (listed bus.new.seen) }
    ensures comes { ComesOn bus.old.end result }
    ensures keeps { KeepsWatch bus.old.bus.now bus.new.bus.now }
    ensures same_watch { bus.new.bus.ghost_name ≡ bus.old.bus.ghost_name }
{
    let mut done = 0;
    while done < bus.end {
        let stop = step_at(pc, x, bus);
        if stop != Stop::Next {
            return Progress { done, stop };
        }
        done += 1;
    }
    Progress {
        done,
        stop: Stop::Next,
    }
}

/// `near_steps` over a bus of its own, of registers that are taken apart for it, with the access behind which it left the loop.
fn run_near(regs: &mut Regs, watch: &mut Watch<'_>, near: Near, count: u32) -> NearRun
    ensures left { Left count watch.old.mode watch.old.owners.now regs.old watch.old.mem.now (first_stray watch.old) near
        result.progress.done result.progress.stop regs.new watch.new.mem.now (first_stray watch.new) (listed result.seen) }
    ensures comes { ComesOn count result.progress }
    ensures keeps { KeepsWatch watch.old watch.new }
{
    let mut bus = Probed {
        bus: watch,
        near,
        seen: None,
        end: count,
    };
    let mut pc = regs.pc;
    let mut x = RegisterFile::of(&regs.x);
    let progress = near_steps(&mut pc, &mut x, &mut bus);
    *regs = Regs { pc, x: x.array() };
    NearRun {
        progress,
        seen: bus.seen,
    }
}

/// Adds the access to the hits if it hits.
fn tell<F: Fn(&[Span], u32, u32) -> bool>(
    seen: Option<Access>,
    pid: u32,
    watcher: &Watcher<'_, F>,
    hits: &mut Hits,
)
    requires watcher { IsWatcher F.pre F.post watcher.now }
    requires range { IfSome seen (λ access. IsShort access.addr access.len) }
    ensures { let watched = watched_by watcher.now in hits.new ≡ with_hits hits.old (told watched.point watched.spans pid (listed seen)) }
{
    if let Some(access) = seen {
        if watcher.point.asks(watcher.spans, access.addr, access.len) {
            hits.add(Hit { pid, access });
        }
    }
}

/// `run_watched` where something is watched. It stands apart, so that a turn in which nothing is makes nothing ready for it.
#[inline(never)]
fn run_beside<F: Fn(&[Span], u32, u32) -> bool>(
    regs: &mut Regs,
    watch: &mut Watch<'_>,
    count: u32,
    pid: u32,
    watcher: &Watcher<'_, F>,
    hits: &mut Hits,
) -> Progress
    requires { IsWatcher F.pre F.post watcher.now }
    ensures leaves { StepsLeave count regs.old watch.old result regs.new watch.new }
    ensures keeps { KeepsWatch watch.old watch.new }
    ensures hits { hits.new ≡ found_behind (watched_by watcher.now) pid count regs.old watch.old hits.old }
{
    let near = Near::of(watcher.spans);
    let mut done = 0;
    while done < count {
        let run = run_near(regs, watch, near, count - done);
        done += run.progress.done;
        tell(run.seen, pid, watcher, hits);
        if run.progress.stop != Stop::Next {
            return Progress {
                done,
                stop: run.progress.stop,
            };
        }
    }
    Progress {
        done: count,
        stop: Stop::Next,
    }
}

/// As `run_steps` of region_watch, and adds each load and store that was carried out and hits, in their order.
pub fn run_watched<F: Fn(&[Span], u32, u32) -> bool>(
    regs: &mut Regs,
    watch: &mut Watch<'_>,
    count: u32,
    pid: u32,
    watcher: &Watcher<'_, F>,
    hits: &mut Hits,
) -> Progress
    requires { IsWatcher F.pre F.post watcher.now }
    ensures leaves { StepsLeave count regs.old watch.old result regs.new watch.new }
    ensures keeps { KeepsWatch watch.old watch.new }
    ensures hits { hits.new ≡ found_behind (watched_by watcher.now) pid count regs.old watch.old hits.old }
{
    if watcher.spans.is_empty() {
        return run_steps(regs, watch, count);
    }
    run_beside(regs, watch, count, pid, watcher, hits)
}
