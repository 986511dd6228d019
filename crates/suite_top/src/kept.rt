//! The items that a run keeps.
ghost use Rattle.std.specs.Prelude.{◌≡◌, ◌≢◌, None, IfOk};
ghost use Rattle.flat_machine.specs.State.{world};
ghost use Rattle.file_commands.specs.Answer.{ending_of, HasEnding};
ghost use Rattle.file_commands.specs.Observed.{observed};
ghost use Rattle.file_commands.specs.HostCourse.{Performs};
ghost use Rattle.suite_top.specs.KeptItems.{keep_of, kept_text, kept_outcome, kept_in};
ghost use Rattle.suite_top.specs.HeldItems.{RecordsHeld};
ghost use Rattle.suite_top.specs.Telling.{ending_behind};

use crate::held::held_law;
use file_commands::{Answer, KeptItems, Status, store_file};
use flat_machine::Machine;
use host_io::Host;
use items_text::items_text;
use std::alloc::{AllocError, Global};

/// The load note whose space is recorded, or 0 where no items are kept.
pub fn keep_of(kept: Option<KeptItems<'_>>) -> u32
    ensures { result ≡ keep_of (kept_in kept.entry) }
{
    match kept {
        Some(kept) => kept.number,
        None => 0,
    }
}

/// Stores the items of the space that a machine recorded, if they are kept, and then has its console and this answer behind it.
pub fn keep_items<H: Host>(
    alloc: Global,
    machine: Machine,
    kept: Option<KeptItems<'_>>,
    answer: Answer,
    host: &mut H,
) -> Result<Answer, AllocError>
    requires { answer.status ≢ Status.HostRead }
    ensures performs { Performs (observed H.told H.faults host.old) (observed H.told H.faults host.new) (kept_outcome (kept_in kept.entry) (world machine) (ending_behind (world machine).rest.console answer)) (ending_of result) }
    ensures held { IfOk result (λ _. kept.entry ≢ None → RecordsHeld (world machine)) }
{
    match kept {
        Some(kept) => {
            let text = kept_text(alloc, &machine)?;
            let whole = with_console(machine, answer)?;
            store_file(alloc, kept.file, &text, whole, host)
        }
        None => with_console(machine, answer),
    }
}

/// The console, and this answer behind it. The console isn't copied, for it may be most of what a run holds.
fn with_console(machine: Machine, answer: Answer) -> Result<Answer, AllocError>
    ensures { HasEnding (ending_behind (world machine).rest.console answer) result }
{
    let mut out = machine.into_console();
    out.extend_from_slice(&answer.out)?;
    Ok(Answer {
        status: answer.status,
        out,
        report: answer.report,
    })
}

/// The text of these items, or the line `none` where no program was loaded into such a space.
fn kept_text(alloc: Global, machine: &Machine) -> Result<Vec<u8>, AllocError>
    ensures text { IfOk result (λ text. text.items ≡ kept_text (world machine.now)) }
    ensures held { IfOk result (λ _. RecordsHeld (world machine.now)) }
{
    match machine.items(alloc)? {
        Some(items) => {
            held_law(&items);
            items_text(alloc, &items)
        }
        None => Vec::from_slice(alloc, b"none\n"),
    }
}
