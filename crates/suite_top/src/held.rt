//! What the types of items say of them: that their numbers are words, and their lists bytes. These functions only read.

ghost use Rattle.std.specs.Prelude.{◌<◌, ◌^◌, map};
ghost use Rattle.std.specs.List.{AllByRecursion};
ghost use Rattle.call_log.specs.Programs.{paths_of as texts_of};
ghost use Rattle.call_log.specs.Values.{got_value};
ghost use Rattle.items_text.specs.Items.{AreBytes, HoldsGot, HoldsItem, AreHeld};
ghost use Rattle.items_text.specs.Values.{item_value, items_value};

use call_log::Got;
use items_text::{Item, Items};

/// Any items are held: their numbers are words, and their lists bytes.
pub fn held_law(items: &Items)
    ensures { AreHeld (items_value items.now) }
{
    let _stack = items.stack;
    let _base = items.base;
    let _pid = items.pid;
    let _events = items.events;
    strings_are_bytes(&items.args);
    strings_are_bytes(&items.env);
    list_is_held(&items.list);
}

fn are_bytes(bytes: &[u8])
    ensures { AreBytes bytes.now }
{}

fn are_words(words: &[u32])
    ensures { AllByRecursion (λ w. w < 2 ^ 32) words.now }
{}

fn strings_are_bytes(strings: &[Vec<u8>])
    ensures { AllByRecursion AreBytes (texts_of strings.now) }
{
    for string in strings {
        are_bytes(string);
    }
}

fn list_is_held(list: &[Item])
    ensures { AllByRecursion HoldsItem (map item_value list.now) }
{
    for item in list {
        item_is_held(item);
    }
}

fn item_is_held(item: &Item)
    ensures { HoldsItem (item_value item.now) }
{
    let _pid = item.entry.pid;
    let _call = item.entry.call;
    let _reply = item.entry.reply;
    are_words(&item.entry.args);
    are_bytes(&item.entry.sent);
    ranges_are_held(&item.entry.got);
    are_bytes(&item.brought);
}

fn ranges_are_held(ranges: &[Got])
    ensures { AllByRecursion HoldsGot (map got_value ranges.now) }
{
    for range in ranges {
        range_is_held(range);
    }
}

fn range_is_held(range: &Got)
    ensures { HoldsGot (got_value range.now) }
{
    let _addr = range.addr;
    are_bytes(&range.bytes);
}
