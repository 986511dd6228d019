//! The calls of a space, with what they brought.

ghost use Rattle.std.specs.Prelude.{◌≡◌, ℕ, ◌-◌, ◌^◌, ◌<◌, ◌++◌, ◌∷◌, [], List, map, OnOk, IfOk};
ghost use Rattle.flat_loader.specs.Frame.{texts};
ghost use Rattle.call_log.specs.Notes.{Note as NoteValue};
ghost use Rattle.call_log.specs.Values.{entry_value, note_value};
ghost use Rattle.items_text.specs.Values.{item_value};
ghost use Rattle.machine_world.specs.Event.{maps_file};
ghost use Rattle.recorded_items.specs.Recorded.{told_item};
ghost use Rattle.recorded_items.specs.Left.{item_with, left_by};
ghost use Rattle.recorded_items.specs.Followed.{HasFollowed};

use crate::copies::{copied_bytes, copied_entry};
use crate::members::{Members, is_errno};
use call_log::{Entry, Note, has_flag, numbers};
use items_text::Item;
use mmap_rules::MAP_ANONYMOUS;
use std::alloc::{AllocError, Global};

/// What some notes tell of a space.
#[derive(Drop)]
pub(crate) struct Follower<'a> {
    members: Members,
    /// The calls that were made in it.
    pub(crate) items: Vec<Item>,
    /// What was brought by mappings of files that aren't among them yet.
    lists: &'a [Vec<u8>],
}

impl<'a> Follower<'a> {
    /// Before the first note, with all that was brought.
    pub(crate) fn new(alloc: Global, space: u32, lists: &'a [Vec<u8>]) -> Follower<'a>
        ensures { HasFollowed space (texts lists.now) result [] }
    {
        Follower {
            members: Members::new(alloc, space),
            items: Vec::new(alloc),
            lists,
        }
    }

    /// One note more.
    pub(crate) fn follow(&mut self, alloc: Global, note: &Note) -> Result<(), AllocError>
        requires { self.old.members.loads < 2 ^ 64 - 1 }
        ensures { OnOk result ((space : ℕ) → (all : List (List ℕ)) → (notes : List NoteValue) → HasFollowed space all self.old notes
            → HasFollowed space all self.new (note_value note.now ∷ notes)) }
    {
        if let Note::Call(entry) = note {
            if self.members.has(entry.pid) {
                self.tell(alloc, entry)?;
            }
        }
        self.members.follow(note)?;
        Ok(())
    }

    /// A call that was made in the space.
    fn tell(&mut self, alloc: Global, entry: &Entry) -> Result<(), AllocError>
        ensures items { OnOk result (map item_value self.new.items.items ≡ map item_value self.old.items.items ++ told_item (item_with (entry_value entry.now) (texts self.old.lists.now)) ∷ []) }
        ensures lists { OnOk result (texts self.new.lists.now ≡ left_by (entry_value entry.now) (texts self.old.lists.now)) }
        ensures members { self.new.members ≡ self.old.members }
    {
        let (item, lists) = item_with(alloc, entry, self.lists)?;
        self.items.push(item)?;
        self.lists = lists;
        Ok(())
    }
}

/// A call with what it brought, and what is left of the lists: a mapping of a file has the next one.
fn item_with<'a>(
    alloc: Global,
    entry: &Entry,
    lists: &'a [Vec<u8>],
) -> Result<(Item, &'a [Vec<u8>]), AllocError>
    ensures item { IfOk result (λ r. item_value r.0 ≡ told_item (item_with (entry_value entry.now) (texts lists.now))) }
    ensures left { IfOk result (λ r. texts r.1.now ≡ left_by (entry_value entry.now) (texts lists.now)) }
{
    let entry_copy = copied_entry(alloc, entry)?;
    if maps_file(entry) {
        if let Some((first, others)) = lists.split_first() {
            let brought = copied_bytes(alloc, first)?;
            return Ok((
                Item {
                    entry: entry_copy,
                    brought,
                },
                others,
            ));
        }
    }
    let brought = Vec::new(alloc);
    Ok((
        Item {
            entry: entry_copy,
            brought,
        },
        lists,
    ))
}

/// Whether a call mapped a file: an mmap2 that wasn't refused and isn't of anonymous pages.
fn maps_file(entry: &Entry) -> bool
    ensures { result ≡ maps_file (entry_value entry.now) }
{
    entry.call == numbers::MMAP2
        && !is_errno(entry.reply)
        && !has_flag(entry.args[3], MAP_ANONYMOUS)
}
