//! The hits of a run that is watched.
ghost use Rattle.std.specs.Prelude.{◌≡◌, ◌++◌, map, IfOk, string_bytes};
ghost use Rattle.std.specs.List.{flat_map};
ghost use Rattle.suite_top.specs.Watched.{span_of, hit_line, total_line, found_text};

use call_log::kind_text;
use file_commands::texts::address_words;
use manifest_text::WatchLine;
use std::alloc::{AllocError, Global};
use watch_points::{Hit, Hits, Span};

/// The ranges of the watch lines, in their order.
pub fn spans_of(alloc: Global, watches: &[WatchLine]) -> Result<Vec<Span>, AllocError>
    ensures { IfOk result (λ spans. spans.items ≡ map span_of watches.now) }
{
    let mut spans = Vec::new(alloc);
    for watch in watches {
        let span = Span {
            addr: watch.addr,
            len: watch.len,
        };
        spans.push(span)?;
    }
    Ok(spans)
}

/// A line for each hit that is kept, and how many there were.
pub fn found_text(alloc: Global, hits: &Hits) -> Result<String, AllocError>
    ensures { IfOk result (λ text. string_bytes text ≡ found_text hits.now) }
{
    let mut text = hits_text(alloc, hits.list())?;
    let total = total_line(alloc, hits.total())?;
    text.push_str(&total)?;
    Ok(text)
}

fn hits_text(alloc: Global, hits: &[Hit]) -> Result<String, AllocError>
    ensures { IfOk result (λ text. string_bytes text ≡ flat_map hit_line hits.now) }
{
    let mut text = String::new(alloc);
    for hit in hits {
        let line = hit_line(alloc, *hit)?;
        text.push_str(&line)?;
    }
    Ok(text)
}

/// `hit PID pc 0xPC addr 0xADDR len LEN KIND`
fn hit_line(alloc: Global, hit: Hit) -> Result<String, AllocError>
    ensures { IfOk result (λ line. string_bytes line ≡ hit_line hit) }
{
    let pid = hit.pid;
    let pc = address_words(alloc, hit.access.pc)?;
    let addr = address_words(alloc, hit.access.addr)?;
    let len = hit.access.len;
    let kind = kind_text(hit.access.kind);
    format!(in alloc; "hit {pid} pc {pc} addr {addr} len {len} {kind}\n")
}

/// `hits TOTAL`
fn total_line(alloc: Global, total: u64) -> Result<String, AllocError>
    ensures { IfOk result (λ line. string_bytes line ≡ total_line total) }
{
    format!(in alloc; "hits {total}\n")
}
