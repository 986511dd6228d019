//! The items of the space that is recorded.

ghost use Rattle.std.specs.Prelude.{◌≡◌, map, reverse, option_map, IfOk};
ghost use Rattle.flat_loader.specs.Frame.{texts};
ghost use Rattle.call_log.specs.Values.{note_value};
ghost use Rattle.items_text.specs.Values.{item_value, items_value};
ghost use Rattle.recorded_items.specs.Recorded.{calls_of, kept_space, recorded, told_item};
ghost use Rattle.recording_laws.specs.Items.{with_lists};

use crate::copies::copied_texts;
use crate::follower::Follower;
use call_log::Note;
use items_text::{Item, Items};
use recordings::Recording;
use std::alloc::{AllocError, Global};

/// The items of the space that was recorded, by the notes of the whole run, oldest first. None where its program wasn't loaded.
pub fn recorded_items(
    alloc: Global,
    recording: &Recording,
    notes: &[Note],
) -> Result<Option<Items>, AllocError>
    ensures { IfOk result (λ items. option_map items_value items ≡ recorded recording.now (reverse (map note_value notes.now))) }
{
    let Some(launch) = recording.program() else {
        return Ok(None);
    };
    let args = copied_texts(alloc, &launch.args)?;
    let env = copied_texts(alloc, &launch.env)?;
    let list = kept_items(alloc, recording.kept(), notes, recording.brought())?;
    Ok(Some(Items {
        stack: launch.stack,
        base: launch.base,
        pid: launch.pid,
        events: recording.events(),
        args,
        env,
        list,
    }))
}

/// The calls in the space of the load note of this number, counted from 1; none at 0.
fn kept_items(
    alloc: Global,
    keep: u32,
    notes: &[Note],
    lists: &[Vec<u8>],
) -> Result<Vec<Item>, AllocError>
    ensures { IfOk result (λ items. map item_value items.items ≡ map told_item (with_lists (calls_of (kept_space keep) (reverse (map note_value notes.now))) (texts lists.now))) }
{
    if keep == 0 {
        return Ok(Vec::new(alloc));
    }
    let mut follower = Follower::new(alloc, keep - 1, lists);
    for note in notes {
        follower.follow(alloc, note)?;
    }
    Ok(follower.items)
}
