//! The regions of a memory.

ghost use Rattle.std.specs.Prelude.{◌≡◌, ◌+◌, ◌-◌, ◌*◌, ◌^◌, ◌<◌, ◌≤◌, List, ℕ, Some, IfOk, IfSome, MatchOption, is_some, length, option_map, replicate, true};
ghost use Rattle.std.specs.List.{range_with_len, swap};
ghost use Rattle.page_runs.specs.declared.place.Kind.{Kind};
ghost use Rattle.page_runs.specs.Choosers.{IsChooser, kind_of};
ghost use Rattle.page_runs.specs.Free.{with_free};
ghost use Rattle.page_runs.specs.Place.{Gets, place, first_of};
ghost use Rattle.nommu_regions.specs.Regions.{AreRegions, IsLive, HaveFreeRuns, CanCut, copy_of, covers, free_behind, free_of, with_cut, with_uses, uses_of};
ghost use Rattle.nommu_regions.specs.Ids.{AreIds, AreInverse, GivesUpper, IsFresh, KeepsPart, Lives, OthersRemain, region_of, start_of};

use crate::region::{Region, Source};
use page_runs::{Chooser, Run, Runs, first_fit};
use phys_mem::{BASE, PAGE, PhysMem};
use std::alloc::{AllocError, Global};
use std::marker::Model;

/// The regions of a memory and its free runs. A region has an id as long as it lives: a new one has the id of its first page, and
/// where its first pages are cut off, the id goes to the first page that is left.
#[derive(Drop)]
pub struct Regions {
    regions: Vec<Region>,
    /// The id of each page.
    ids: Vec<u32>,
    /// The page that has each id.
    starts: Vec<u32>,
    free: Runs,
}

impl Model for Regions {
    ghost use Rattle.std.specs.Prelude.{◌≡◌, length};
    ghost use Rattle.nommu_regions.specs.Regions.{HaveFreeRuns};
    ghost use Rattle.nommu_regions.specs.Ids.{Numbered, AreInverse};

    ghost Value = { Numbered };

    ghost view = { λ s. record { regions = s.regions.items; starts = s.starts.items } };

    ghost invariant = { λ s. HaveFreeRuns s.regions.items s.free × AreInverse s.ids.items s.starts.items (length s.regions.items) };
}

impl Regions {
    /// Takes room for one region per page. All pages are free.
    pub fn new(alloc: Global, pages: u32) -> Result<Regions, AllocError>
        requires some { 1 ≤ pages }
        requires most { pages ≤ 16384 }
        ensures regions { IfOk result (λ s. s.regions ≡ replicate pages (record { first = 0; pages = 0; source = Source.Own; uses = 0 })) }
        ensures ids { IfOk result (λ s. s.starts ≡ range_with_len 0 pages) }
    {
        let none = Region {
            first: 0,
            pages: 0,
            source: Source::Own,
            uses: 0,
        };
        let regions = vec![in alloc; none; pages as usize]?;
        let ids = numbers(alloc, pages)?;
        let starts = numbers(alloc, pages)?;
        let free = Runs::new(alloc, pages)?;
        Ok(Regions {
            regions,
            ids,
            starts,
            free,
        })
    }

    /// The number of pages.
    pub fn pages(&self) -> u32
        ensures pages { result ≡ length self.now.regions }
        ensures some { 1 ≤ result }
        ensures most { result ≤ 16384 }
        ensures regions { AreRegions self.now.regions }
        ensures ids { AreIds self.now }
    {
        self.regions.len() as u32
    }

    /// The maximal runs of the pages that no live region has, ascending.
    pub fn free(&self) -> &[Run]
        ensures { result.now ≡ (free_of self.now.regions).runs }
    {
        self.free.list()
    }

    /// Whether a free run has so many pages, whichever is taken of those that have.
    #[tactic(auto, using(page_runs::proofs::Places::same_fits))]
    pub fn fits(&self, pages: u32) -> bool
        ensures { (kind : Kind) → is_some (place kind (free_of self.now.regions).runs pages) ≡ result }
    {
        first_fit(self.free(), pages).is_some()
    }

    /// The region of an id.
    pub fn region(&self, id: u32) -> Region
        requires { Lives self.now id }
        ensures { region_of self.now id ≡ Some result }
    {
        let first = self.starts[id as usize];
        self.regions[first as usize]
    }

    /// The id of the live region that begins at a page.
    pub fn at(&self, first: u32) -> u32
        requires { IsLive self.now.regions first }
        ensures start { start_of self.now result ≡ first }
        ensures live { Lives self.now result }
    {
        self.ids[first as usize]
    }

    /// Makes a region of `pages` pages with one use, at the front of the free run that the chooser picks. Its
    /// bytes are cleared. None where no free run has so many pages, which changes nothing.
    pub fn fresh<F: Fn(&[Run], u32) -> Option<usize>>(
        &mut self,
        mem: &mut PhysMem,
        pages: u32,
        source: Source,
        chooser: &Chooser<F>,
    ) -> Option<u32>
        requires chooser { IsChooser F.pre F.post chooser.now }
        requires pages { 0 < pages }
        requires memory { length mem.old ≡ 4096 * length self.old.regions }
        ensures placed { option_map (start_of self.old) result ≡ first_of (free_of self.old.regions).runs (place (kind_of chooser.now) (free_of self.old.regions).runs pages) }
        ensures gets { Gets (kind_of chooser.now) (free_of self.old.regions).runs pages (option_map (start_of self.old) result) }
        ensures made { MatchOption result ((self.new ≡ self.old) × (mem.new ≡ mem.old)) (λ id. IsFresh id pages source self.old self.new mem.old mem.new) }
    {
        let first = self.free.take(pages, chooser)?;
        self.regions[first as usize] = Region {
            first,
            pages,
            source,
            uses: 1,
        };
        mem.clear(BASE + PAGE * first, PAGE * pages);
        Some(self.ids[first as usize])
    }

    /// The lowest live copy that has `pages` pages of a file from its page `first` on, made at this change count of the file.
    pub fn find(&self, file: u32, change: u64, first: u32, pages: u32) -> Option<u32>
        ensures lowest { option_map (start_of self.now) result ≡ copy_of self.now.regions file change first pages }
        ensures live { IfSome result (λ id. Lives self.now id) }
        ensures copy { (id : ℕ) → (r : Region) → result ≡ Some id → region_of self.now id ≡ Some r → covers file change first pages r ≡ true }
    {
        let place = first_copy(&self.regions, file, change, first, pages)?;
        Some(self.ids[place])
    }

    /// One use more.
    pub fn add_use(&mut self, id: u32)
        requires live { Lives self.old id }
        requires few { uses_of self.old.regions (start_of self.old id) + 1 < 2 ^ 32 }
        ensures uses { self.new ≡ record self.old { regions = with_uses self.old.regions (start_of self.old id) (λ uses. uses + 1) } }
        ensures live { Lives self.new id }
        ensures others { OthersRemain id self.old self.new }
    {
        let first = self.starts[id as usize];
        self.regions[first as usize].uses += 1;
    }

    /// One use less. The last one frees the region's pages.
    pub fn drop_use(&mut self, id: u32)
        requires { Lives self.old id }
        ensures uses { self.new ≡ record self.old { regions = with_uses self.old.regions (start_of self.old id) (λ uses. uses - 1) } }
        ensures free { (r : Region) → region_of self.old id ≡ Some r → free_of self.new.regions ≡ free_behind r (free_of self.old.regions) }
        ensures others { OthersRemain id self.old self.new }
    {
        let first = self.starts[id as usize];
        let region = self.regions[first as usize];
        self.regions[first as usize] = Region {
            uses: region.uses - 1,
            ..region
        };
        if region.uses == 1 {
            self.free.give(region.first, region.pages);
        }
    }

    /// Frees `count` pages of a region from page `from` on. The id keeps what is left before them, or what is left behind them where
    /// nothing is left before. Where both parts are left, the answer is the id of the upper one. The bytes stay as they are.
    pub fn cut(&mut self, id: u32, from: u32, count: u32) -> Option<u32>
        requires { CanCut self.old.regions (start_of self.old id) from count }
        ensures regions { self.new.regions ≡ with_cut self.old.regions (start_of self.old id) from count }
        ensures free { free_of self.new.regions ≡ with_free (free_of self.old.regions) from count }
        ensures part { KeepsPart self.old self.new id from count }
        ensures upper { GivesUpper self.old self.new id from count result }
        ensures others { OthersRemain id self.old self.new }
    {
        let first = self.starts[id as usize];
        let region = self.regions[first as usize];
        let end = from + count;
        cut_pages(&mut self.regions, &mut self.free, first, from, count);
        if end == region.first + region.pages {
            return None;
        }
        let upper = self.ids[end as usize];
        if first < from {
            return Some(upper);
        }
        swap_starts(&mut self.ids, &mut self.starts, id, upper);
        None
    }
}

/// The numbers from 0 on.
fn numbers(alloc: Global, count: u32) -> Result<Vec<u32>, AllocError>
    ensures { IfOk result (λ all. all.items ≡ range_with_len 0 count) }
{
    let mut all = Vec::with_capacity(alloc, count as usize)?;
    for number in 0..count {
        all.push(number)?;
    }
    Ok(all)
}

/// Frees pages of the region that begins at page `first`.
fn cut_pages(regions: &mut [Region], free: &mut Runs, first: u32, from: u32, count: u32)
    requires kept { HaveFreeRuns regions.old free.old }
    requires can { CanCut regions.old first from count }
    ensures kept { HaveFreeRuns regions.new free.new }
    ensures len { length regions.new ≡ length regions.old }
    ensures regions { regions.new ≡ with_cut regions.old first from count }
    ensures free { free_of regions.new ≡ with_free (free_of regions.old) from count }
{
    let region = regions[first as usize];
    let end = from + count;
    regions[first as usize] = region.before(from);
    free.give(from, count);
    if end < region.first + region.pages {
        regions[end as usize] = region.behind(end);
    }
}

/// Each of two ids goes to the page of the other one.
fn swap_starts(ids: &mut [u32], starts: &mut [u32], one: u32, other: u32)
    requires inverse { AreInverse ids.old starts.old (length starts.old) }
    requires one { one < length starts.old }
    requires other { other < length starts.old }
    ensures starts { starts.new ≡ swap starts.old one other }
    ensures inverse { AreInverse ids.new starts.new (length starts.old) }
{
    let (first, second) = (starts[one as usize], starts[other as usize]);
    starts.swap(one as usize, other as usize);
    ids.swap(first as usize, second as usize);
}

/// The place of the first live copy that has these pages.
#[tactic(auto, unfolding(crate::specs::Regions::copy_of))]
fn first_copy(regions: &[Region], file: u32, change: u64, first: u32, pages: u32) -> Option<usize>
    ensures { result ≡ copy_of regions.now file change first pages }
{
    regions
        .iter()
        .position(|region| region.covers(file, change, first, pages))
}
