//! The command `replay elf|flat FILE ITEMS`.
ghost use Rattle.std.specs.Prelude.{◌≡◌};
ghost use Rattle.bflt_format.specs.Fault.{flat_fault};
ghost use Rattle.items_text.specs.Items.{AreSpelled};
ghost use Rattle.items_text.specs.Values.{items_value};
ghost use Rattle.replay_check.specs.Replays.{original_value, replayed};
ghost use Rattle.file_commands.specs.Texts.Replays.{replay_tail};
ghost use Rattle.file_commands.specs.Ending.{memory_ending, refused_ending, OrMemory};
ghost use Rattle.file_commands.specs.Observed.{observed};
ghost use Rattle.file_commands.specs.Answer.{ending_of};
ghost use Rattle.file_commands.specs.Replay.{verdict_ending, replayed_ending, flat_ending, program_ending, replay_ending, loaded_outcome, replay_outcome};
ghost use Rattle.file_commands.specs.HostCourse.{PerformsCommand};

use crate::answer::Answer;
use crate::command::Format;
use crate::file_load::{load_file, load_limited};
use crate::status::Status;
use crate::texts::listing::refused_flat;
use crate::texts::replays::{no_line, refused_items, refused_replay, yes_line};
use bflt_format::Flat;
use host_io::Host;
use items_text::{Items, ItemsFault, items_read};
use replay_check::{Original, ReplayFault, Verdict, replay};
use std::alloc::{AllocError, Global};

/// The most bytes of the items' text.
const ITEMS_LIMIT: u32 = 536_870_912;

/// Loads the program and the items, and says whether the items are a run of the program by itself.
pub fn replay_file<H: Host>(
    alloc: Global,
    format: Format,
    file: &str,
    items: &str,
    host: &mut H,
) -> Result<Answer, AllocError>
    ensures { PerformsCommand (observed H.told H.faults host.old) (observed H.told H.faults host.new) (replay_outcome format file.now items.now) (ending_of result) }
{
    match load_file(alloc, file, host) {
        Ok(program) => replay_items(alloc, format, &program, items, host),
        Err(ended) => ended.answer(),
    }
}

/// Goes on with a program that was loaded.
fn replay_items<H: Host>(
    alloc: Global,
    format: Format,
    program: &[u8],
    items: &str,
    host: &mut H,
) -> Result<Answer, AllocError>
    ensures { PerformsCommand (observed H.told H.faults host.old) (observed H.told H.faults host.new) (loaded_outcome format program.now items.now) (ending_of result) }
{
    match load_limited(alloc, items, ITEMS_LIMIT, None, host) {
        Ok(text) => replay_text(alloc, format, program, &text),
        Err(ended) => ended.answer(),
    }
}

fn replay_text(
    alloc: Global,
    format: Format,
    program: &[u8],
    text: &[u8],
) -> Result<Answer, AllocError>
    ensures { OrMemory (replay_ending format program.now text.now) (ending_of result) }
{
    match items_read(alloc, text) {
        Ok(items) => replay_program(alloc, format, program, &items),
        Err(ItemsFault::At { line }) => {
            Answer::early(alloc, Status::Refused, refused_items(alloc, line))
        }
        Err(ItemsFault::Memory) => Err(AllocError),
    }
}

fn replay_program(
    alloc: Global,
    format: Format,
    program: &[u8],
    items: &Items,
) -> Result<Answer, AllocError>
    requires { AreSpelled (items_value items.now) }
    ensures { OrMemory (program_ending format program.now (items_value items.now)) (ending_of result) }
{
    match format {
        Format::Elf => {
            let original = Original::Elf { bytes: program };
            replay_original(alloc, &original, items)
        }
        Format::Flat => replay_flat(alloc, program, items),
    }
}

fn replay_flat(alloc: Global, program: &[u8], items: &Items) -> Result<Answer, AllocError>
    requires { AreSpelled (items_value items.now) }
    ensures { OrMemory (flat_ending program.now (items_value items.now) (flat_fault program.now)) (ending_of result) }
{
    match Flat::read(alloc, program) {
        Ok(flat) => {
            let original = Original::Flat { flat: &flat };
            replay_original(alloc, &original, items)
        }
        Err(fault) => Answer::early(alloc, Status::Refused, refused_flat(alloc, fault)),
    }
}

fn replay_original(
    alloc: Global,
    original: &Original<'_>,
    items: &Items,
) -> Result<Answer, AllocError>
    requires { AreSpelled (items_value items.now) }
    ensures { OrMemory (replayed_ending (items_value items.now) (replayed (original_value original.now) (items_value items.now))) (ending_of result) }
{
    match replay(alloc, original, items) {
        Ok(verdict) => tell(alloc, items, verdict),
        Err(fault) => refuse(alloc, &fault),
    }
}

/// The answer for a program that isn't replayed.
fn refuse(alloc: Global, fault: &ReplayFault) -> Result<Answer, AllocError>
    ensures ending { OrMemory (refused_ending (replay_tail fault.now)) (ending_of result) }
    ensures memory { fault.now ≡ ReplayFault.Memory → ending_of result ≡ memory_ending }
{
    let line = refused_replay(alloc, fault);
    Answer::early(alloc, Status::Refused, line)
}

/// The answer for a verdict on these items.
fn tell(alloc: Global, items: &Items, verdict: Verdict) -> Result<Answer, AllocError>
    ensures { OrMemory (verdict_ending (items_value items.now) verdict) (ending_of result) }
{
    match verdict {
        Verdict::Yes => {
            let line = yes_line(alloc, items.list.len(), items.events)?;
            Ok(Answer::done(alloc, line))
        }
        Verdict::No { item, events } => {
            let line = no_line(alloc, item, events)?;
            Ok(Answer::refuted(alloc, line))
        }
    }
}
