//! Which bytes of memory are a space's own, page by page.
ghost use Rattle.std.specs.Prelude.{◌≡◌, ◌+◌, ◌*◌, ◌-◌, ◌^◌, ◌<◌, ◌≤◌, ◌⊎◌, ℕ, length, slice_get, replicate, option_map, IfOk, Some};
ghost use Rattle.mmap_rules.specs.declared.page_owner.PageOwner.{PageOwner};
ghost use Rattle.mmap_rules.specs.Space.{may_use};
ghost use Rattle.mmap_rules.specs.Owners.{owns, owns_at, free_page, touched, IsShaped, entered, taken_out};

use crate::mapping::Range;
use crate::page_owner::PageOwner;
use crate::steps::Steps;
use phys_mem::BASE;
use std::alloc::{AllocError, Global};
use std::marker::{Brand, Model};
use std::sync::ledger::{Blank, Ledger};

/// The bytes of a page.
const PAGE: u64 = phys_mem::PAGE as u64;

/// A table with an entry for each page of memory.
#[derive(Drop)]
pub struct Owners {
    entries: Vec<PageOwner>,
}

impl Model for Owners {
    ghost use Rattle.std.specs.Prelude.{List, ◌≤◌, length};
    ghost use Rattle.mmap_rules.specs.declared.page_owner.PageOwner.{PageOwner};
    ghost use Rattle.mmap_rules.specs.Owners.{coded_table};

    ghost Value = { List PageOwner };

    ghost coded = { coded_table };

    ghost view = { λ o. o.entries.items };

    ghost invariant = { λ o. length o.entries.items ≤ 16384 };
}

/// The entry of a page with one range more.
#[tactic(auto, unfolding(crate::specs::Owners::entered))]
fn entered(range: &Range, page: u32, owner: PageOwner) -> PageOwner
    requires above { 2 ^ 31 ≤ range.now.from }
    requires page { page < 16384 }
    requires uses { owner.uses < 2 ^ 32 - 1 }
    ensures { result ≡ entered range.now page owner }
{
    let from = u64::from(range.from - BASE);
    let to = from + u64::from(range.size);
    let (start, end) = (PAGE * u64::from(page), PAGE * (u64::from(page) + 1));
    if from.max(start) >= to.min(end) {
        return owner;
    }
    if owner.uses == 0 {
        return PageOwner {
            from: from.saturating_sub(start) as u32,
            write: range.writes,
            uses: 1,
        };
    }
    PageOwner {
        uses: owner.uses + 1,
        ..owner
    }
}

/// Adds a range to the entries of the pages that it touches.
fn add_range(entries: &mut [PageOwner], range: &Range)
    requires shaped { IsShaped (length entries.old) range.now }
    requires few { length entries.old ≤ 16384 }
    requires uses { (p : ℕ) → (o : PageOwner) → slice_get entries.old p ≡ Some o → o.uses < 2 ^ 32 - 1 }
    ensures len { length entries.new ≡ length entries.old }
    ensures each { (p : ℕ) → slice_get entries.new p ≡ option_map (entered range.now p) (slice_get entries.old p) }
{
    let from = u64::from(range.from - BASE);
    let first = (from / PAGE) as u32;
    let end = ((from + u64::from(range.size)) / PAGE) as u32;
    for page in first..end {
        let owner = entries[page as usize];
        entries[page as usize] = entered(range, page, owner);
    }
}

/// The entry of a page with one range less.
#[tactic(auto, unfolding(crate::specs::Owners::taken_out))]
fn taken_out(range: &Range, page: u32, owner: PageOwner) -> PageOwner
    requires above { 2 ^ 31 ≤ range.now.from }
    requires page { page < 16384 }
    ensures { result ≡ taken_out range.now page owner }
{
    let from = u64::from(range.from - BASE);
    let to = from + u64::from(range.size);
    let (start, end) = (PAGE * u64::from(page), PAGE * (u64::from(page) + 1));
    if from.max(start) >= to.min(end) {
        return owner;
    }
    if owner.uses <= 1 {
        return PageOwner {
            from: 0,
            write: false,
            uses: 0,
        };
    }
    PageOwner {
        uses: owner.uses - 1,
        ..owner
    }
}

/// Takes a range out of the entries of the pages that it touches.
fn remove_range(entries: &mut [PageOwner], range: &Range)
    requires shaped { IsShaped (length entries.old) range.now }
    requires few { length entries.old ≤ 16384 }
    ensures len { length entries.new ≡ length entries.old }
    ensures each { (p : ℕ) → slice_get entries.new p ≡ option_map (taken_out range.now p) (slice_get entries.old p) }
{
    let from = u64::from(range.from - BASE);
    let first = (from / PAGE) as u32;
    let end = ((from + u64::from(range.size)) / PAGE) as u32;
    for page in first..end {
        let owner = entries[page as usize];
        entries[page as usize] = taken_out(range, page, owner);
    }
}

impl Owners {
    /// The table with these entries, one for each page of memory from the first on.
    pub fn of(entries: Vec<PageOwner>) -> Owners
        requires { length entries.items ≤ 16384 }
        ensures { result ≡ entries.items }
    {
        Owners { entries }
    }

    /// A table in which nothing is own.
    pub fn new(alloc: Global, pages: u32) -> Result<Owners, AllocError>
        requires { pages ≤ 16384 }
        ensures { IfOk result (λ o. o ≡ replicate pages free_page) }
    {
        let free = PageOwner {
            from: 0,
            write: false,
            uses: 0,
        };
        Ok(Owners {
            entries: vec![in alloc; free; pages as usize]?,
        })
    }

    /// Enters a range whose pages are in memory, and which ends where a page ends.
    pub fn add(&mut self, range: &Range)
        requires shaped { IsShaped (length self.old) range.now }
        requires uses { (p : ℕ) → (o : PageOwner) → slice_get self.old p ≡ Some o → o.uses < 2 ^ 32 - 1 }
        ensures len { length self.new ≡ length self.old }
        ensures each { (p : ℕ) → slice_get self.new p ≡ option_map (entered range.now p) (slice_get self.old p) }
    {
        add_range(&mut self.entries, range);
    }

    /// Takes out a range that was entered.
    pub fn remove(&mut self, range: &Range)
        requires shaped { IsShaped (length self.old) range.now }
        ensures len { length self.new ≡ length self.old }
        ensures each { (p : ℕ) → slice_get self.new p ≡ option_map (taken_out range.now p) (slice_get self.old p) }
    {
        remove_range(&mut self.entries, range);
    }

    /// The entry of a page of memory. It counts one step.
    #[inline]
    pub fn look<L: Ledger>(&self, page: u32, steps: &mut Steps<L>) -> PageOwner
        requires { page < length self.now }
        ensures entry { slice_get self.now page ≡ Some result }
        ensures step { steps.new ≡ steps.old + 1 }
    {
        steps.tick();
        self.entries[page as usize]
    }

    /// One byte at a distance from the first of memory. It looks at the entry of its page.
    #[inline]
    #[tactic(auto, unfolding(crate::specs::Owners::owns_at))]
    fn owns_at<L: Ledger>(&self, at: u64, write: bool, steps: &mut Steps<L>) -> bool
        requires inside { at < 4096 * length self.now }
        requires small { at < 2 ^ 32 }
        ensures owns { result ≡ owns_at self.now write at }
        ensures step { steps.new ≡ steps.old + 1 }
    {
        let entry = self.look((at / PAGE) as u32, steps);
        entry.uses > 0 && u64::from(entry.from) <= at % PAGE && (entry.write || !write)
    }

    /// Whether each of `len` bytes from `addr` on is own, and may be written where `write` asks for it.
    /// It looks once at each page that the range touches, and at none where the range isn't in memory.
    #[tactic(auto, using(crate::proofs::Ranges::ranges))]
    pub fn own_counted<L: Ledger>(
        &self,
        addr: u32,
        len: u32,
        write: bool,
        steps: &mut Steps<L>,
    ) -> bool
        ensures answer { result ≡ may_use (owns self.now write) addr len }
        ensures cost { steps.new ≤ steps.old + touched addr len }
        ensures near { len ≤ 4 → steps.new ≤ steps.old + 2 }
        ensures outside { (addr < 2 ^ 31) ⊎ (2 ^ 31 + 4096 * length self.now < addr + len) → steps.new ≡ steps.old }
    {
        if len == 0 {
            return true;
        }
        if addr < BASE {
            return false;
        }
        let mut at = u64::from(addr - BASE);
        let mut left = u64::from(len);
        if at + left > PAGE * self.entries.len() as u64 {
            return false;
        }
        while left > 0 {
            if !self.owns_at(at, write, steps) {
                return false;
            }
            let here = left.min(PAGE - at % PAGE);
            at += here;
            left -= here;
        }
        true
    }

    /// As `own_counted`, with a counter of its own that nobody reads.
    #[inline]
    fn own_by<L: Ledger>(&self, addr: u32, len: u32, write: bool, blank: Blank) -> bool
        requires name { blank.name ≡ L.name }
        requires parts { blank.parts ≡ L.parts }
        requires some { 0 < blank.parts }
        ensures { result ≡ may_use (owns self.now write) addr len }
    {
        let mut steps = Steps::<L>::new(blank);
        self.own_counted(addr, len, write, &mut steps)
    }

    /// As `own_counted`, with nothing counted.
    pub fn own(&self, addr: u32, len: u32, write: bool) -> bool
        ensures { result ≡ may_use (owns self.now write) addr len }
    {
        self.own_by::<Brand>(addr, len, write, Blank::new(1))
    }
}
