//! How the bytes that belong to relocations are counted.

ghost use Rattle.std.specs.Prelude.{◌≡◌, ℕ, ◌+◌, ◌≤◌, ◌&&◌, nat_le, nat_lt, true, min, List, [], ◌∷◌, ◌++◌, length, slice_index, if◌then◌else◌, OnOk};
ghost use Rattle.elf2flt_tool.specs.Cover.{IsCover, HasRoom, IsInside, IsWord};

use crate::cover::Cover;
use flat_layout::Layout;
use psabi_relocs::Span;
use std::alloc::{AllocError, Global};

/// Room for so many counts is made at a time.
const STEP: usize = 65536;

/// The count of one more.
fn one_more(count: u8) -> u8
    ensures { result ≡ min 2 (count + 1) }
{
    if count == 0 { 1 } else { 2 }
}

/// Counts `len` bytes from `from` on once more.
fn count_more(counts: &mut [u8], from: usize, len: usize)
    requires { from + len ≤ length counts.old }
    ensures { (b : ℕ) → slice_index counts.new b
        ≡ (if nat_le from b && nat_lt b (from + len) then min 2 (slice_index counts.old b + 1) else slice_index counts.old b) }
{
    for byte in from..from + len {
        counts[byte] = one_more(counts[byte]);
    }
}

/// Makes room for the counts of the bytes before `end`, of the `len` that there are. What is new is 0.
fn reach(counts: &mut Vec<u8>, end: usize, len: usize) -> Result<(), AllocError>
    requires end { end ≤ len }
    requires len { length counts.old.items ≤ len }
    ensures end { OnOk result (end ≤ length counts.new.items) }
    ensures len { OnOk result (length counts.new.items ≤ len) }
    ensures counts { OnOk result ((b : ℕ) → slice_index counts.new.items b ≡ slice_index counts.old.items b) }
{
    if end > counts.len() {
        counts.resize(end.saturating_add(STEP).min(len), 0)?;
    }
    Ok(())
}

impl Cover {
    /// That of no relocation, for `len` bytes.
    pub fn new(alloc: Global, len: usize) -> Cover
        ensures { (l : Layout) → IsCover l len [] result }
    {
        Cover {
            len,
            still: Vec::new(alloc),
            words: Vec::new(alloc),
        }
    }

    /// Takes in one more span.
    #[inline(always)]
    pub fn add(&mut self, layout: &Layout, span: &Span) -> Result<(), AllocError>
        requires inside { IsInside layout.now self.old.len span.now }
        requires word { IsWord span.now }
        requires room { HasRoom self.old }
        ensures cover { OnOk result ((n : ℕ) (ss : List Span) → IsCover layout.now n ss self.old → IsCover layout.now n (ss ++ span.now ∷ []) self.new) }
        ensures room { OnOk result (HasRoom self.new) }
        ensures len { self.new.len ≡ self.old.len }
    {
        let place = layout.off(span.place) as usize;
        if span.recorded {
            reach(&mut self.words, place + 1, self.len)?;
            self.words[place] = one_more(self.words[place]);
        } else if span.len > 0 {
            let end = place + span.len as usize;
            reach(&mut self.still, end, self.len)?;
            count_more(&mut self.still, place, span.len as usize);
        }
        Ok(())
    }
}
