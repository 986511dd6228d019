//! The reading of a text of items.

ghost use Rattle.std.specs.Prelude.{◌≡◌, ℕ, ◌+◌, ◌<◌, ◌≤◌, ◌-◌, ◌^◌, length, map, IfOk, Ok, Err};
ghost use Rattle.call_log.specs.Programs.{paths_of as texts_of};
ghost use Rattle.items_text.specs.declared.fault.ItemsFault.TheVariants.{At};
ghost use Rattle.items_text.specs.Items.{ItemsValue, AreSpelled, AreHeld};
ghost use Rattle.items_text.specs.Values.{item_value, items_value};
ghost use Rattle.items_text.specs.Lines.{text_of};
ghost use Rattle.items_text.specs.Faults.{IsFault};
ghost use Rattle.items_text.specs.Pieces.{many};
ghost use Rattle.items_text.specs.Reading.{is_base, space_numbers, space_at, string_at, item_at, items_of, Finds, Gives};

use crate::calls::item_at;
use crate::fault::ItemsFault;
use crate::heads::SpaceHead;
use crate::items::{Item, Items};
use crate::pieces::{behind, count_at, cut_at, string_at, word_at};
use crate::writing::space_line;
use std::alloc::{AllocError, Global};

/// The first page where a program's block may begin, and the last one.
const LOWEST_BASE: u32 = 0x8000_0000;

const HIGHEST_BASE: u32 = 0x83ff_f000;

const PAGE_SIZE: u32 = 4096;

/// The items whose text the bytes are, or the first line that isn't as it has to be. A text of 2^32 - 1 bytes or more isn't
/// read: Memory.
pub fn items_read(alloc: Global, bytes: &[u8]) -> Result<Items, ItemsFault>
    // What is read is spelled so, each byte of it.
    ensures read { IfOk result (λ items. AreSpelled (items_value items) × (bytes.now ≡ text_of (items_value items))) }
    // What is spelled so is read, but for host memory.
    ensures only { (i : ItemsValue) → AreHeld i → AreSpelled i → bytes.now ≡ text_of i → Gives result (Ok i) }
    // Which line it is.
    ensures fault { (line : ℕ) → result ≡ Err (At line) → IsFault line bytes.now }
    // The same as a function of the text.
    ensures exact { Gives result (items_of bytes.now) }
{
    // The number of each line is a word, and there is one line more, at the most, than bytes.
    if bytes.len() >= u32::MAX as usize {
        return Err(ItemsFault::Memory);
    }
    read_lines(alloc, bytes)
}

#[tactic(auto, unfolding(crate::specs::Reading::items_of))]
fn read_lines(alloc: Global, text: &[u8]) -> Result<Items, ItemsFault>
    requires { length text.now < 2 ^ 32 - 1 }
    ensures { Gives result (items_of text.now) }
{
    let Some((head, rest)) = space_at(alloc, text)? else {
        return Err(ItemsFault::At { line: 1 });
    };
    let (args, rest) = strings_at(alloc, b"arg ", rest)?;
    let (env, rest) = strings_at(alloc, b"env ", rest)?;
    let (list, rest) = list_at(alloc, rest)?;
    match behind(b"end\n", rest) {
        None => Err(fault_behind(&args, &env, &list, 1)),
        Some([]) => Ok(Items {
            stack: head.stack,
            base: head.base,
            pid: head.pid,
            events: head.events,
            args,
            env,
            list,
        }),
        Some(_) => Err(fault_behind(&args, &env, &list, 2)),
    }
}

/// A fault so many lines behind the first one and these.
fn fault_behind(args: &[Vec<u8>], env: &[Vec<u8>], list: &[Item], more: u32) -> ItemsFault
    requires { 1 + length args.now + length env.now + length list.now + more < 2 ^ 32 }
    ensures { result ≡ At (1 + length args.now + length env.now + length list.now + more) }
{
    let line = 1 + args.len() as u32 + env.len() as u32 + list.len() as u32 + more;
    ItemsFault::At { line }
}

/// The numbers of the first line, and what is behind it.
#[tactic(auto, unfolding(crate::specs::Reading::space_at))]
fn space_at(alloc: Global, text: &[u8]) -> Result<Option<(SpaceHead, &[u8])>, AllocError>
    ensures read { IfOk result (λ read. Finds (λ r. (r.0, r.1.now)) read (space_at text.now)) }
{
    let Some(head) = space_numbers(text) else {
        return Ok(None);
    };
    let line = space_line(alloc, head.stack, head.base, head.pid, head.events)?;
    let Some(rest) = behind(&line, text) else {
        return Ok(None);
    };
    if !is_base(head.base) {
        return Ok(None);
    }
    Ok(Some((head, rest)))
}

/// What the numbers of the first line would be, whatever stands between them.
#[tactic(auto, unfolding(crate::specs::Reading::space_numbers))]
fn space_numbers(text: &[u8]) -> Option<SpaceHead>
    ensures { Finds (λ head. head) result (space_numbers text.now) }
{
    let Some((_, rest)) = cut_at(b' ', text) else {
        return None;
    };
    let Some((_, rest)) = cut_at(b' ', rest) else {
        return None;
    };
    let Some((stack, rest)) = word_at(10, b' ', rest) else {
        return None;
    };
    let Some((_, rest)) = cut_at(b'x', rest) else {
        return None;
    };
    let Some((base, rest)) = word_at(16, b' ', rest) else {
        return None;
    };
    let Some((_, rest)) = cut_at(b' ', rest) else {
        return None;
    };
    let Some((pid, rest)) = word_at(10, b' ', rest) else {
        return None;
    };
    let Some((_, rest)) = cut_at(b' ', rest) else {
        return None;
    };
    let Some((events, _)) = count_at(10, b'\n', rest) else {
        return None;
    };
    Some(SpaceHead {
        stack,
        base,
        pid,
        events,
    })
}

fn is_base(base: u32) -> bool
    ensures { result ≡ is_base base }
{
    base.is_multiple_of(PAGE_SIZE) && base >= LOWEST_BASE && base <= HIGHEST_BASE
}

/// The strings of the lines that begin so, and what is behind them.
fn strings_at<'a>(
    alloc: Global,
    front: &[u8],
    text: &'a [u8],
) -> Result<(Vec<Vec<u8>>, &'a [u8]), AllocError>
    ensures read { IfOk result (λ r. (texts_of r.0.items, r.1.now) ≡ many (string_at front.now) text.now) }
    ensures shorter { IfOk result (λ r. length r.0.items + length r.1.now ≤ length text.now) }
{
    let mut strings = Vec::new(alloc);
    let mut rest = text;
    while let Some((string, more)) = string_at(alloc, front, rest)? {
        strings.push(string)?;
        rest = more;
    }
    Ok((strings, rest))
}

/// The calls, and what is behind them.
fn list_at(alloc: Global, text: &[u8]) -> Result<(Vec<Item>, &[u8]), AllocError>
    ensures read { IfOk result (λ r. (map item_value r.0.items, r.1.now) ≡ many item_at text.now) }
    ensures shorter { IfOk result (λ r. length r.0.items + length r.1.now ≤ length text.now) }
{
    let mut list = Vec::new(alloc);
    let mut rest = text;
    while let Some((item, more)) = item_at(alloc, rest)? {
        list.push(item)?;
        rest = more;
    }
    Ok((list, rest))
}
