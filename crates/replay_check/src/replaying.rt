//! The loop of a replay.

ghost use Rattle.std.specs.Prelude.{◌≡◌, ◌<◌, ◌≤◌, length, map, IfOk};
ghost use Rattle.std.specs.List.{AllByRecursion};
ghost use Rattle.items_text.specs.Items.{IsItem};
ghost use Rattle.items_text.specs.Values.{item_value};
ghost use Rattle.replay_check.specs.Verdicts.{verdict_from};
ghost use Rattle.replay_check.specs.Solos.{solo_of};
ghost use Rattle.replay_check.specs.Loops.{items_alone, Advances};

use crate::lone::Lone;
use crate::step::Step;
use crate::verdict::Verdict;
use items_text::Item;
use rv32im_step::Stop;
use std::alloc::{AllocError, Global};

/// Instructions, and the event behind them if one is left, of up to `count`.
fn advance(
    lone: &mut Lone,
    alloc: Global,
    items: &[Item],
    used: usize,
    count: u32,
) -> Result<Step, AllocError>
    requires some { 0 < count }
    requires used { used ≤ length items.now }
    requires spelled { AllByRecursion IsItem (map item_value items.now) }
    ensures { IfOk result (λ step. Advances (items_alone (map item_value items.now)) used count (solo_of lone.old) (solo_of lone.new) step) }
{
    let Some(progress) = lone.run(count) else {
        return Ok(Step::Refuted { done: 0 });
    };
    let done = progress.done;
    match progress.stop {
        Stop::Next => Ok(Step::Goes { done, used }),
        Stop::Refused(_) => Ok(Step::Refuted { done }),
        Stop::Trap(_) => {
            lone.pop();
            Ok(Step::Goes {
                done: done + 1,
                used,
            })
        }
        Stop::Call => {
            if used >= items.len() {
                return Ok(Step::Refuted { done });
            }
            let item = &items[used];
            if !lone.answer(alloc, &item.entry, &item.brought)? {
                return Ok(Step::Refuted { done });
            }
            Ok(Step::Goes {
                done: done + 1,
                used: used + 1,
            })
        }
    }
}

/// Whether the items are an unrefuted run of so many events.
pub(crate) fn replay_all(
    lone: &mut Lone,
    alloc: Global,
    items: &[Item],
    events: u64,
) -> Result<Verdict, AllocError>
    requires { AllByRecursion IsItem (map item_value items.now) }
    ensures { IfOk result (λ verdict. verdict ≡ verdict_from events 0 0 (solo_of lone.old) (items_alone (map item_value items.now))) }
{
    let mut used = 0usize;
    let mut done = 0u64;
    while done < events {
        let count = (events - done).min(u64::from(u32::MAX)) as u32;
        match advance(lone, alloc, items, used, count)? {
            Step::Goes {
                done: more,
                used: now,
            } => {
                done += u64::from(more);
                used = now;
            }
            Step::Refuted { done: more } => {
                return Ok(Verdict::No {
                    item: used as u64 + 1,
                    events: done + u64::from(more),
                });
            }
        }
    }
    if used < items.len() {
        let item = (used + 1) as u64;
        return Ok(Verdict::No { item, events });
    }
    Ok(Verdict::Yes)
}
