//! What is asked of all processes, and done to all.

ghost use Rattle.std.specs.Prelude.{◌≡◌, ◌<◌, map, filter, length, reverse, slice_get, Some};
ghost use Rattle.std.specs.List.{list_any};
ghost use Rattle.vfork_exec.specs.Families.{is_child, is_ready, is_lent_to, resumed, roused};
ghost use Rattle.vfork_exec.specs.Procs.{pid_of, with_state, behind};

use crate::entry::Entry;
use crate::family::Who;

/// Those that stood still for this child go on.
pub fn resume<P>(entries: &mut [Entry<P>], child: u32)
    ensures { entries.new ≡ map (λ e. with_state e (resumed child e.state)) entries.old }
{
    for entry in entries.iter_mut() {
        entry.state = entry.state.resumed(child);
    }
}

/// Those that wait on this pipe go on.
pub fn rouse<P>(entries: &mut [Entry<P>], pipe: u32)
    ensures { entries.new ≡ map (λ e. with_state e (roused pipe e.state)) entries.old }
{
    for entry in entries.iter_mut() {
        entry.state = entry.state.roused(pipe);
    }
}

/// A process has ended: its children have no parent, and who stood still or waits for it goes on.
pub fn leave<P>(entries: &mut [Entry<P>], pid: u32, parent: u32)
    ensures { entries.new ≡ map (behind pid parent) entries.old }
{
    for entry in entries.iter_mut() {
        entry.leave(pid, parent);
    }
}

/// Whether one of the children lives that process `own` means.
pub fn has_child<P>(entries: &[Entry<P>], own: u32, who: Who) -> bool
    ensures { result ≡ list_any (λ e. is_child own who e.pid e.parent) entries.now }
{
    for entry in entries {
        if who.is_child(own, entry.pid, entry.parent) {
            return true;
        }
    }
    false
}

/// Whether a process stands still for this child.
pub fn is_lent<P>(entries: &[Entry<P>], child: u32) -> bool
    ensures { result ≡ list_any (λ e. is_lent_to child e.state) entries.now }
{
    for entry in entries {
        if entry.state.is_lent_to(child) {
            return true;
        }
    }
    false
}

/// How many may run.
pub fn ready_count<P>(entries: &[Entry<P>]) -> usize
    ensures { result ≡ length (filter (λ e. is_ready e.state) entries.now) }
{
    let mut count = 0;
    for entry in entries {
        if entry.state.is_ready() {
            count += 1;
        }
    }
    count
}

/// The pid of the one that may run with this number, counted from 0 and from the end of the list.
pub fn ready_at<P>(entries: &[Entry<P>], number: usize) -> u32
    requires { number < length (filter (λ e. is_ready e.state) entries.now) }
    ensures { slice_get (reverse (map pid_of (filter (λ e. is_ready e.state) entries.now))) number ≡ Some result }
{
    let mut before = number;
    let mut end = entries.len();
    while end > 0 {
        end -= 1;
        let entry = &entries[end];
        if entry.state.is_ready() {
            if before == 0 {
                return entry.pid;
            }
            before -= 1;
        }
    }
    unreachable!()
}
