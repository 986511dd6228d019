//! The reading of a call's line.

ghost use Rattle.std.specs.Prelude.{◌≡◌, ◌+◌, ◌≤◌, length, map, IfOk};
ghost use Rattle.call_log.specs.Values.{got_value};
ghost use Rattle.items_text.specs.Values.{item_value};
ghost use Rattle.items_text.specs.Pieces.{many};
ghost use Rattle.items_text.specs.Reading.{call_numbers, head_at, range_of, range_at, ranges_at, may_bring, item_at, Finds};

use crate::heads::CallHead;
use crate::items::Item;
use crate::pieces::{behind, bytes_at, cut_at, hex_of, word_at};
use crate::writing::{addr_text, call_head};
use call_log::{Entry, Got, numbers};
use std::alloc::{AllocError, Global};

/// The call whose line the text begins with, and what is behind it.
#[tactic(auto, unfolding(crate::specs::Reading::item_at))]
pub fn item_at(alloc: Global, text: &[u8]) -> Result<Option<(Item, &[u8])>, AllocError>
    ensures { IfOk result (λ read. Finds (λ r. (item_value r.0, r.1.now)) read (item_at text.now)) }
{
    let Some((head, rest)) = head_at(alloc, text)? else {
        return Ok(None);
    };
    let Some((sent, rest)) = bytes_at(alloc, b' ', rest)? else {
        return Ok(None);
    };
    let Some(rest) = behind(b"got ", rest) else {
        return Ok(None);
    };
    let Some((got, rest)) = ranges_at(alloc, rest)? else {
        return Ok(None);
    };
    let Some(rest) = behind(b"brought ", rest) else {
        return Ok(None);
    };
    let Some((brought, rest)) = bytes_at(alloc, b'\n', rest)? else {
        return Ok(None);
    };
    if !may_bring(head.call, &brought) {
        return Ok(None);
    }
    let args = head.args;
    let entry = Entry {
        pid: head.pid,
        call: head.call,
        args,
        sent,
        reply: head.reply,
        got,
    };
    Ok(Some((Item { entry, brought }, rest)))
}

/// The numbers of the call whose line the text begins with, and what is behind them.
#[tactic(auto, unfolding(crate::specs::Reading::head_at))]
fn head_at(alloc: Global, text: &[u8]) -> Result<Option<(CallHead, &[u8])>, AllocError>
    ensures { IfOk result (λ read. Finds (λ r. (r.0, r.1.now)) read (head_at text.now)) }
{
    let Some(head) = call_numbers(text) else {
        return Ok(None);
    };
    let line = call_head(alloc, head.pid, head.call, &head.args, head.reply)?;
    let Some(rest) = behind(&line, text) else {
        return Ok(None);
    };
    Ok(Some((head, rest)))
}

/// What the numbers of a call's line would be, whatever stands between them.
#[tactic(auto, unfolding(crate::specs::Reading::call_numbers))]
fn call_numbers(text: &[u8]) -> Option<CallHead>
    ensures { Finds (λ head. head) result (call_numbers text.now) }
{
    let Some((_, rest)) = cut_at(b' ', text) else {
        return None;
    };
    let Some((pid, rest)) = word_at(10, b' ', rest) else {
        return None;
    };
    let Some((call, rest)) = word_at(10, b' ', rest) else {
        return None;
    };
    let Some((a0, rest)) = word_at(16, b' ', rest) else {
        return None;
    };
    let Some((a1, rest)) = word_at(16, b' ', rest) else {
        return None;
    };
    let Some((a2, rest)) = word_at(16, b' ', rest) else {
        return None;
    };
    let Some((a3, rest)) = word_at(16, b' ', rest) else {
        return None;
    };
    let Some((a4, rest)) = word_at(16, b' ', rest) else {
        return None;
    };
    let Some((a5, rest)) = word_at(16, b' ', rest) else {
        return None;
    };
    let Some((_, rest)) = cut_at(b' ', rest) else {
        return None;
    };
    let Some((reply, _)) = word_at(16, b' ', rest) else {
        return None;
    };
    let args = [a0, a1, a2, a3, a4, a5];
    Some(CallHead {
        pid,
        call,
        args,
        reply,
    })
}

/// Whether a call may bring these bytes: only mmap2 brings any.
fn may_bring(call: u32, brought: &[u8]) -> bool
    ensures { result ≡ may_bring call brought.now }
{
    brought.is_empty() || call == numbers::MMAP2
}

/// The ranges that were written, or `- `, and what is behind them.
#[tactic(auto, unfolding(crate::specs::Reading::ranges_at))]
fn ranges_at(alloc: Global, text: &[u8]) -> Result<Option<(Vec<Got>, &[u8])>, AllocError>
    ensures { IfOk result (λ read. Finds (λ r. (map got_value r.0.items, r.1.now)) read (ranges_at text.now)) }
{
    let (ranges, rest) = each_range(alloc, text)?;
    if !ranges.is_empty() {
        return Ok(Some((ranges, rest)));
    }
    let Some(rest) = behind(b"- ", rest) else {
        return Ok(None);
    };
    Ok(Some((ranges, rest)))
}

/// The ranges, each with the space behind it, and what is behind them.
fn each_range(alloc: Global, text: &[u8]) -> Result<(Vec<Got>, &[u8]), AllocError>
    ensures { IfOk result (λ r. (map got_value r.0.items, r.1.now) ≡ many range_at text.now) }
{
    let mut ranges = Vec::new(alloc);
    let mut rest = text;
    while let Some((range, more)) = range_at(alloc, rest)? {
        ranges.push(range)?;
        rest = more;
    }
    Ok((ranges, rest))
}

/// A range with the space behind it, and what is behind that.
#[tactic(auto, unfolding(crate::specs::Reading::range_at))]
fn range_at(alloc: Global, text: &[u8]) -> Result<Option<(Got, &[u8])>, AllocError>
    ensures { IfOk result (λ read. Finds (λ r. (got_value r.0, r.1.now)) read (range_at text.now)) }
{
    let Some((word, rest)) = cut_at(b' ', text) else {
        return Ok(None);
    };
    let Some(range) = range_of(alloc, word)? else {
        return Ok(None);
    };
    Ok(Some((range, rest)))
}

/// `ADDR:HEX`
#[tactic(auto, unfolding(crate::specs::Reading::range_of))]
fn range_of(alloc: Global, word: &[u8]) -> Result<Option<Got>, AllocError>
    ensures { IfOk result (λ read. Finds got_value read (range_of word.now)) }
{
    let Some((addr, _)) = word_at(16, b':', word) else {
        return Ok(None);
    };
    let front = addr_text(alloc, addr)?;
    let Some(digits) = behind(&front, word) else {
        return Ok(None);
    };
    let Some(bytes) = hex_of(alloc, digits)? else {
        return Ok(None);
    };
    Ok(Some(Got { addr, bytes }))
}
