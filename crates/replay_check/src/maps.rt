//! Mappings that come and go.

ghost use Rattle.std.specs.Prelude.{◌≡◌, ℕ, ◌+◌, ◌%◌, ◌^◌, ◌<◌, ◌≤◌, true, false, length, IfOk};
ghost use Rattle.call_log.specs.Values.{entry_value};
ghost use Rattle.flat_loader.specs.Alone.{own_of, is_placed, brings_all, new_bytes, may_lie, may_map, with_range, without_pages};
ghost use Rattle.replay_check.specs.Ranges.{own_memory};
ghost use Rattle.replay_check.specs.Answers.{GivesOrRefutes, IsNewRange, byte_lies, mapped};
ghost use Rattle.replay_check.specs.Solos.{item_of};

use crate::memory::{LoneMemory, MEMORY_END};
use crate::ranges::{cut_range, place_of_cut, place_of_exact, take_range};
use call_log::{Entry, has_flag};
use mmap_rules::{MAP_ANONYMOUS, PROT_WRITE, Range, pages_for};
use phys_mem::{BASE, PAGE};
use std::alloc::AllocError;

/// The range of an mmap2 at its reply. None where it is empty, not on a page, or not in memory.
fn new_range(entry: &Entry) -> Option<Range>
    ensures { IsNewRange (entry_value entry.now) result }
{
    let from = entry.reply;
    let size = u64::from(PAGE) * u64::from(pages_for(entry.args[1]));
    if size == 0 || from % PAGE != 0 || from < BASE || u64::from(from) + size > MEMORY_END {
        return None;
    }
    let anonymous = has_flag(entry.args[3], MAP_ANONYMOUS);
    Some(Range {
        from,
        size: size as u32,
        writes: anonymous || has_flag(entry.args[2], PROT_WRITE),
        anonymous,
    })
}

/// Whether a file brings all bytes of its range; zeros aren't brought.
fn brings_all(range: &Range, brought: &[u8]) -> bool
    ensures { result ≡ brings_all range.now brought.now }
{
    if range.anonymous {
        brought.is_empty()
    } else {
        brought.len() == range.size as usize
    }
}

impl LoneMemory {
    /// Whether a byte that nobody may write may lie at an address: where a byte is own already, it is the same and may not be
    /// written.
    fn byte_lies(&self, at: u32, byte: u8) -> bool
        requires above { 2 ^ 31 ≤ at }
        requires inside { at < 2 ^ 31 + 2 ^ 26 }
        ensures { result ≡ byte_lies (own_memory self.now) at byte }
    {
        if !self.owners.own(at, 1, false) {
            return true;
        }
        !self.owners.own(at, 1, true) && self.mem.get8(at) == byte
    }

    /// Whether bytes that nobody may write may lie from an address on.
    fn agrees(&self, addr: u32, bytes: &[u8]) -> bool
        requires above { 2 ^ 31 ≤ addr }
        requires inside { addr + length bytes.now ≤ 2 ^ 31 + 2 ^ 26 }
        ensures { result ≡ may_lie (own_memory self.now) false addr bytes.now }
    {
        for (i, byte) in bytes.iter().enumerate() {
            if !self.byte_lies(addr + i as u32, *byte) {
                return false;
            }
        }
        true
    }

    /// Whether a byte of the page at an address is own. The last one is where any is.
    fn has_own(&self, page: u32) -> bool
        requires above { 2 ^ 31 ≤ page }
        requires inside { page + 4096 ≤ 2 ^ 31 + 2 ^ 26 }
        requires begins { page % 4096 ≡ 0 }
        ensures last { result ≡ own_of self.now.ranges (page + 4095) }
        ensures free { result ≡ false → (a : ℕ) → page ≤ a → a < page + 4096 → own_of self.now.ranges a ≡ false }
    {
        self.owners.own(page + (PAGE - 1), 1, false)
    }

    /// Whether a range may be a new one: page by page, none of its bytes is own, or nobody may write it and it is the same.
    fn may_lie(&self, range: &Range, brought: &[u8]) -> bool
        requires placed { is_placed range.now ≡ true }
        requires whole { range.now.size % 4096 ≡ 0 }
        requires brings { brings_all range.now brought.now ≡ true }
        requires writes { range.now.anonymous ≡ true → range.now.writes ≡ true }
        ensures { result ≡ may_lie (own_memory self.now) range.now.writes range.now.from (new_bytes range.now brought.now) }
    {
        for page in 0..range.size / PAGE {
            let addr = range.from + PAGE * page;
            let at = (PAGE * page) as usize;
            if self.has_own(addr)
                && (range.writes || !self.agrees(addr, &brought[at..at + PAGE as usize]))
            {
                return false;
            }
        }
        true
    }

    /// Adds a range, which may be one.
    fn map(&mut self, range: Range, brought: &[u8]) -> Result<(), AllocError>
        requires whole { range.size % 4096 ≡ 0 }
        requires may { may_map (own_memory self.old) range brought.now ≡ true }
        requires writes { range.anonymous ≡ true → range.writes ≡ true }
        ensures { IfOk result (λ _. own_memory self.new ≡ with_range (own_memory self.old) range (new_bytes range brought.now)) }
    {
        if self.ranges.len() >= u32::MAX as usize {
            return Err(AllocError);
        }
        self.ranges.push(range)?;
        self.owners.add(&range);
        if range.anonymous {
            self.mem.clear(range.from, range.size);
        } else {
            self.mem.copy_in(range.from, brought);
        }
        Ok(())
    }

    /// The range of an mmap2 is one more, if it may be.
    pub(crate) fn map_new(&mut self, entry: &Entry, brought: &[u8]) -> Result<bool, AllocError>
        ensures { IfOk result (λ right. GivesOrRefutes (mapped (own_memory self.old) (item_of entry.now brought.now)) right (own_memory self.new)) }
    {
        let Some(range) = new_range(entry) else {
            return Ok(false);
        };
        if !brings_all(&range, brought) || !self.may_lie(&range, brought) {
            return Ok(false);
        }
        self.map(range, brought)?;
        Ok(true)
    }

    /// Takes off the oldest range but the block that is just the pages of so many bytes; where there is none, cuts them out of
    /// the anonymous one that has them. False where there is neither.
    pub(crate) fn unmap(&mut self, addr: u32, len: u32) -> Result<bool, AllocError>
        ensures { IfOk result (λ done. GivesOrRefutes (without_pages (own_memory self.old) addr len) done (own_memory self.new)) }
    {
        if len == 0 || addr % PAGE != 0 {
            return Ok(false);
        }
        let pages = pages_for(len);
        if let Some(place) = place_of_exact(&self.ranges, addr, pages) {
            take_range(&mut self.ranges, &mut self.owners, place);
            return Ok(true);
        }
        let Some(place) = place_of_cut(&self.ranges, addr, pages) else {
            return Ok(false);
        };
        cut_range(&mut self.ranges, &mut self.owners, place, addr, pages)?;
        Ok(true)
    }
}
