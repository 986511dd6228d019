//! Instructions of a process in its space.

ghost use Rattle.std.specs.Prelude.{◌≡◌, true};
ghost use Rattle.mmap_rules.specs.Space.{writable_in, may_use};
ghost use Rattle.vfork_exec.specs.Procs.{CanRun};
ghost use Rattle.memory_world.specs.Physical.{has_stray};
ghost use Rattle.region_watch.specs.declared.mode.Mode.TheVariants.{Halt};
ghost use Rattle.flat_machine.specs.State.{is_whole};
ghost use Rattle.flat_machine.specs.Steps.{AdvanceKeeps, OwnSteps, MemorySteps};
ghost use Rattle.watch_points.specs.Watchers.{IsWatcher, watched_by};

use kept_parts::KeptParts;
use mmap_rules::Space;
use region_watch::{Mode, Progress, Watch, Window};
use rv32im_step::Stop;
use watch_points::{Hits, Span, Watcher, run_watched};

/// The own bytes of a mapping by its place in the list, if there is one, and all of them may be written.
fn window(space: &Space, at: usize) -> Window
    ensures { may_use (writable_in space.now.maps) result.from result.size ≡ true }
{
    if let Some(mapping) = space.maps().get(at) {
        let range = mapping.range;
        if range.writes && range.from.checked_add(range.size).is_some() {
            return Window {
                from: range.from,
                size: range.size,
            };
        }
    }
    Window { from: 0, size: 0 }
}

/// Carries out up to `count` instructions of a process that may run, whose accesses are watched in this mode, and stops at the first that isn't carried out.
pub(crate) fn advance<G: Fn(&[Span], u32, u32) -> bool>(
    parts: &mut KeptParts,
    pid: u32,
    count: u32,
    mode: Mode,
    watcher: &Watcher<'_, G>,
    hits: &mut Hits,
) -> Progress
    requires watcher { IsWatcher G.pre G.post watcher.now }
    requires ready { CanRun parts.old.procs pid }
    requires strayed { has_stray parts.old.notes ≡ is_whole mode }
    ensures keeps { AdvanceKeeps pid count parts.old result.done parts.new }
    ensures own { mode ≡ Halt → OwnSteps (watched_by watcher.now) pid count parts.old hits.old result parts.new hits.new }
    ensures memory { MemorySteps (watched_by watcher.now) pid count mode parts.old hits.old result parts.new hits.new }
{
    let task = parts.procs.get_mut(pid);
    match &parts.spaces[task.space as usize] {
        Some(space) => {
            let mut watch = Watch::with_windows(
                &mut parts.mem,
                space.owners(),
                mode,
                window(space, 0),
                window(space, 1),
            );
            let progress = run_watched(&mut task.regs, &mut watch, count, pid, watcher, hits);
            parts.recording.pass(task.space, progress.done);
            progress
        }
        None => Progress {
            done: 0,
            stop: Stop::Next,
        },
    }
}
