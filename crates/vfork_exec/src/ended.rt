//! The list of those that have ended.

ghost use Rattle.std.specs.Prelude.{◌≡◌, ◌<◌, ◌≤◌, ◌==◌, not, filter, vec_len, vec_capacity};
ghost use Rattle.vfork_exec.specs.Families.{first_ended, without_first, ended_behind};

use crate::family::{Ended, Who};

/// Of the children that process `own` means, the one that ended first.
pub fn first_ended(ended: &[Ended], own: u32, who: Who) -> Option<Ended>
    ensures { result ≡ first_ended own who ended.now }
{
    for child in ended {
        if who.is_child(own, child.pid, child.parent) {
            return Some(*child);
        }
    }
    None
}

/// Takes that one off the list.
pub fn forget_first(ended: &mut Vec<Ended>, own: u32, who: Who)
    ensures items { ended.new.items ≡ without_first own who ended.old.items }
    ensures capacity { vec_capacity ended.new ≡ vec_capacity ended.old }
{
    for at in 0..ended.len() {
        let child = ended[at];
        if who.is_child(own, child.pid, child.parent) {
            ended.remove(at);
            return;
        }
    }
}

/// One more has ended: its children go, and without a parent it goes at once.
#[tactic(auto, unfolding(crate::specs::Families::ended_behind))]
pub fn add_ended(ended: &mut Vec<Ended>, one: Ended)
    requires { vec_len ended.old < vec_capacity ended.old }
    ensures items { ended.new.items ≡ ended_behind one ended.old.items }
    ensures capacity { vec_capacity ended.old ≤ vec_capacity ended.new }
{
    forget_children(ended, one.pid);
    if one.parent != 0 && ended.push(one).is_err() {
        unreachable!();
    }
}

fn forget_children(ended: &mut Vec<Ended>, pid: u32)
    ensures items { ended.new.items ≡ filter (λ child. not (child.parent == pid)) ended.old.items }
    ensures fewer { vec_len ended.new ≤ vec_len ended.old }
    ensures capacity { vec_capacity ended.new ≡ vec_capacity ended.old }
{
    ended.retain(|child| child.parent != pid);
}
