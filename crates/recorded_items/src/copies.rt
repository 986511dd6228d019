//! Copies of what the notes and the recording hold.

ghost use Rattle.std.specs.Prelude.{◌≡◌, map, IfOk};
ghost use Rattle.call_log.specs.Programs.{paths_of as texts_of};
ghost use Rattle.call_log.specs.Values.{got_value, entry_value};

use call_log::{Entry, Got};
use std::alloc::{AllocError, Global};

/// A call as it was answered.
pub(crate) fn copied_entry(alloc: Global, entry: &Entry) -> Result<Entry, AllocError>
    ensures { IfOk result (λ copy. entry_value copy ≡ entry_value entry.now) }
{
    let sent = copied_bytes(alloc, &entry.sent)?;
    let got = copied_ranges(alloc, &entry.got)?;
    Ok(Entry {
        pid: entry.pid,
        call: entry.call,
        args: entry.args,
        sent,
        reply: entry.reply,
        got,
    })
}

/// The ranges that a call wrote.
fn copied_ranges(alloc: Global, ranges: &[Got]) -> Result<Vec<Got>, AllocError>
    ensures { IfOk result (λ copies. map got_value copies.items ≡ map got_value ranges.now) }
{
    let mut copies = Vec::new(alloc);
    for range in ranges {
        copies.push(copied_range(alloc, range)?)?;
    }
    Ok(copies)
}

fn copied_range(alloc: Global, range: &Got) -> Result<Got, AllocError>
    ensures { IfOk result (λ copy. got_value copy ≡ got_value range.now) }
{
    let bytes = copied_bytes(alloc, &range.bytes)?;
    Ok(Got {
        addr: range.addr,
        bytes,
    })
}

/// The strings of a program.
pub(crate) fn copied_texts(alloc: Global, texts: &[Vec<u8>]) -> Result<Vec<Vec<u8>>, AllocError>
    ensures { IfOk result (λ copies. texts_of copies.items ≡ texts_of texts.now) }
{
    let mut copies = Vec::new(alloc);
    for text in texts {
        copies.push(copied_bytes(alloc, text)?)?;
    }
    Ok(copies)
}

pub(crate) fn copied_bytes(alloc: Global, bytes: &[u8]) -> Result<Vec<u8>, AllocError>
    ensures { IfOk result (λ copy. copy.items ≡ bytes.now) }
{
    bytes.to_vec(alloc)
}
