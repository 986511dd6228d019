//! Mappings that go (Linux, munmap(2) and "No-MMU memory mapping support").

ghost use Rattle.std.specs.Prelude.{◌≡◌, ◌+◌, ◌*◌, ◌^◌, ◌<◌, ◌≤◌, [], ◌++◌, Some, length, slice_get, take, drop, position, vec_len, vec_capacity, IfSome, OnErr};
ghost use Rattle.std.specs.List.{remove};
ghost use Rattle.mmap_rules.specs.Held.{IsKept};
ghost use Rattle.mmap_rules.specs.Mappings.{is_range, can_lose, part_of, left_of, hit, CanLose};
ghost use Rattle.mmap_rules.specs.MapState.{freed, unmapped, Unmaps, OthersKeepIds, NameRegions};

use crate::mapping::{Mapping, Range};
use crate::owners::Owners;
use crate::space::Space;
use crate::want::pages_for;
use call_log::Errno;
use nommu_regions::Regions;
use phys_mem::{BASE, PAGE};

/// The own range of the mapping is this one: so many pages from an address on.
fn is_range(mapping: &Mapping, addr: u32, pages: u32) -> bool
    ensures { result ≡ is_range addr (4096 * pages) mapping.now }
{
    let size = u64::from(PAGE) * u64::from(pages);
    mapping.range.from == addr && u64::from(mapping.range.size) == size
}

/// The mapping is anonymous, and its own range has these pages.
fn can_lose(mapping: &Mapping, addr: u32, pages: u32) -> bool
    ensures { result ≡ can_lose addr (4096 * pages) mapping.now }
{
    let range = &mapping.range;
    let end = u64::from(addr) + u64::from(PAGE) * u64::from(pages);
    range.anonymous && range.from <= addr && end <= u64::from(range.from) + u64::from(range.size)
}

/// The place of the oldest mapping whose own range is this one.
fn place_of_range(maps: &[Mapping], addr: u32, pages: u32) -> Option<usize>
    ensures { result ≡ position (is_range addr (4096 * pages)) maps.now }
{
    maps.iter()
        .position(|mapping| is_range(mapping, addr, pages))
}

/// The place of the oldest anonymous mapping whose own range has these pages.
fn place_that_loses(maps: &[Mapping], addr: u32, pages: u32) -> Option<usize>
    ensures { result ≡ position (can_lose addr (4096 * pages)) maps.now }
{
    maps.iter()
        .position(|mapping| can_lose(mapping, addr, pages))
}

/// Takes a mapping off the list, and its range off the table.
fn take_mapping(maps: &mut Vec<Mapping>, owners: &mut Owners, place: usize) -> Mapping
    requires kept { IsKept owners.old maps.old.items (vec_capacity maps.old) }
    requires place { place < length maps.old.items }
    ensures mapping { slice_get maps.old.items place ≡ Some result }
    ensures maps { maps.new.items ≡ remove maps.old.items place }
    ensures kept { IsKept owners.new maps.new.items (vec_capacity maps.new) }
    ensures pages { length owners.new ≡ length owners.old }
{
    let mapping = maps.remove(place);
    owners.remove(&mapping.range);
    mapping
}

/// The pages of a mapping from one address up to another, if there are any, come to a place of the list.
fn insert_part(maps: &mut Vec<Mapping>, place: usize, mapping: &Mapping, from: u32, to: u32)
    requires above { 2 ^ 31 ≤ from }
    requires up { from ≤ to }
    requires place { place ≤ length maps.old.items }
    requires room { length maps.old.items + length (part_of mapping.now from to) ≤ vec_capacity maps.old }
    ensures items { maps.new.items ≡ take place maps.old.items ++ part_of mapping.now from to ++ drop place maps.old.items }
    ensures capacity { vec_capacity maps.new ≡ vec_capacity maps.old }
{
    if from == to {
        return;
    }
    let first = (from - BASE) / PAGE;
    let pages = (to - from) / PAGE;
    let part = Mapping {
        first,
        pages,
        range: Range {
            from: BASE + PAGE * first,
            size: PAGE * pages,
            ..mapping.range
        },
        source: mapping.source,
    };
    maps.insert(place, part).unwrap();
}

/// Cuts pages out of an anonymous mapping: what is left of it stands in its place.
fn cut_mapping(
    maps: &mut Vec<Mapping>,
    owners: &mut Owners,
    place: usize,
    addr: u32,
    pages: u32,
) -> Mapping
    requires most { length owners.old ≤ 16384 }
    requires kept { IsKept owners.old maps.old.items (vec_capacity maps.old) }
    requires can { CanLose maps.old.items place addr pages }
    ensures mapping { slice_get maps.old.items place ≡ Some result }
    ensures maps { maps.new.items ≡ take place maps.old.items ++ left_of result addr (4096 * pages) ++ drop (place + 1) maps.old.items }
    ensures kept { IsKept owners.new maps.new.items (vec_capacity maps.new) }
    ensures pages { length owners.new ≡ length owners.old }
{
    let mapping = maps.remove(place);
    let range = &mapping.range;
    let size = PAGE * pages;
    insert_part(maps, place, &mapping, addr + size, range.from + range.size);
    insert_part(maps, place, &mapping, range.from, addr);
    owners.remove(&Range {
        from: addr,
        size,
        ..*range
    });
    mapping
}

impl Space {
    /// Unmaps the pages of so many bytes: the oldest mapping that has just them goes; where there is none, they are cut out of the
    /// anonymous mapping that has them. A mapping that goes leaves each region its id, and a cut each but the one that is cut. It takes
    /// no memory. Einval where no mapping is hit, for length 0, and for an address that isn't a page's.
    pub fn unmap(&mut self, regions: &mut Regions, addr: u32, len: u32) -> Result<(), Errno>
        requires pages { self.old.pages ≡ length regions.old.regions }
        requires names { NameRegions regions.old.regions self.old.maps }
        ensures unmaps { Unmaps (unmapped self.old regions.old.regions addr len) (freed self.old regions.old.regions) (freed self.new regions.new.regions) result }
        ensures refused { OnErr result (regions.new ≡ regions.old) }
        ensures others { IfSome (hit self.old.maps addr len) (λ h. OthersKeepIds h.mapping.first regions.old regions.new) }
        ensures ids { IfSome (hit self.old.maps addr len) (λ h. h.left ≡ [] → regions.new.starts ≡ regions.old.starts) }
        ensures names { NameRegions regions.new.regions self.new.maps }
    {
        if len == 0 || addr % PAGE != 0 {
            return Err(Errno::Einval);
        }
        let _memory = regions.pages();
        let pages = pages_for(len);
        if let Some(place) = place_of_range(&self.maps, addr, pages) {
            let gone = take_mapping(&mut self.maps, &mut self.owners, place);
            let id = regions.at(gone.first);
            regions.drop_use(id);
            return Ok(());
        }
        let Some(place) = place_that_loses(&self.maps, addr, pages) else {
            return Err(Errno::Einval);
        };
        let cut = cut_mapping(&mut self.maps, &mut self.owners, place, addr, pages);
        let id = regions.at(cut.first);
        regions.cut(id, (addr - BASE) / PAGE, pages);
        Ok(())
    }
}
