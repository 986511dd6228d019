//! A program's private space, but for its bytes.
ghost use Rattle.std.specs.Prelude.{◌≡◌, ◌+◌, ◌*◌, ◌%◌, ◌^◌, ◌<◌, ◌≤◌, true, false, IfOk, length, Some};
ghost use Rattle.nommu_regions.specs.declared.region.Region.{Region};
ghost use Rattle.nommu_regions.specs.declared.region.Source.TheVariants.{Own};
ghost use Rattle.nommu_regions.specs.Ids.{Lives, region_of};
ghost use Rattle.mmap_rules.specs.Space.{own_in, writable_in, may_use};
ghost use Rattle.mmap_rules.specs.Owners.{owns, IsTable};
ghost use Rattle.mmap_rules.specs.Held.{AreMappings, FitsBlock, block_mapping, held_block, next_brk, CanRelease, LoseUses, released};

use crate::mapping::{Mapping, Range};
use crate::owners::Owners;
use nommu_regions::{Regions, Source};
use phys_mem::{BASE, PAGE};
use std::alloc::{AllocError, Global};
use std::marker::Model;

/// The bytes at a block's start that belong to nobody.
const HEADER: u32 = 64;

/// The host's memory for a space with its block.
#[derive(Drop)]
pub struct SpaceRoom {
    maps: Vec<Mapping>,
    owners: Owners,
}

impl Model for SpaceRoom {
    ghost use Rattle.std.specs.Prelude.{◌≡◌, ℕ, ◌<◌, [], length, replicate, vec_len, vec_capacity};
    ghost use Rattle.mmap_rules.specs.Owners.{free_page};

    ghost Value = { ℕ };

    ghost view = { λ r. length r.owners };

    ghost invariant = { λ r. (r.owners ≡ replicate (length r.owners) free_page) × (r.maps.items ≡ []) × (vec_len r.maps ≡ 0) × (0 < vec_capacity r.maps) };
}

impl SpaceRoom {
    /// Room for a space in a memory of so many pages.
    pub fn new(alloc: Global, pages: u32) -> Result<SpaceRoom, AllocError>
        requires some { 1 ≤ pages }
        requires most { pages ≤ 16384 }
        ensures { IfOk result (λ room. room ≡ pages) }
    {
        Ok(SpaceRoom {
            maps: Vec::with_capacity(alloc, 1)?,
            owners: Owners::new(alloc, pages)?,
        })
    }
}

/// A space: its mappings, its break, and the table of its own bytes.
#[derive(Drop)]
pub struct Space {
    pub(crate) maps: Vec<Mapping>,
    pub(crate) owners: Owners,
    pub(crate) brk: u32,
    pub(crate) brk_low: u32,
    pub(crate) brk_high: u32,
}

impl Model for Space {
    ghost use Rattle.std.specs.Prelude.{length, vec_capacity};
    ghost use Rattle.mmap_rules.specs.Held.{Held, IsKept};

    ghost Value = { Held };

    ghost view = { λ s. record { maps = s.maps.items; brk = s.brk; brk_low = s.brk_low; brk_high = s.brk_high; pages = length s.owners } };

    ghost invariant = { λ s. IsKept s.owners s.maps.items (vec_capacity s.maps) };
}

/// The mapping of a block: all of its run but the header is own, and may be written.
fn block_mapping(first: u32, pages: u32) -> Mapping
    requires some { 0 < pages }
    requires inside { first + pages ≤ 16384 }
    ensures { result ≡ block_mapping first pages }
{
    Mapping {
        first,
        pages,
        range: Range {
            from: BASE + PAGE * first + HEADER,
            size: PAGE * pages - HEADER,
            writes: true,
            anonymous: false,
        },
        source: Source::Own,
    }
}

impl Space {
    /// A space with the block alone, which is the region of this id: the image ends `end` bytes behind the
    /// block's first byte, and the stack has `stack` bytes.
    pub fn new(room: SpaceRoom, regions: &Regions, block: u32, end: u32, stack: u32) -> Space
        requires pages { room ≡ length regions.now.regions }
        requires live { Lives regions.now block }
        requires fits { (r : Region) → region_of regions.now block ≡ Some r → FitsBlock r end stack }
        ensures { (r : Region) → region_of regions.now block ≡ Some r → result ≡ held_block (length regions.now.regions) r end stack }
    {
        let pages = regions.pages();
        let region = regions.region(block);
        let mapping = block_mapping(region.first, region.pages);
        let SpaceRoom {
            mut maps,
            mut owners,
        } = room;
        owners.add(&mapping.range);
        maps.push(mapping).unwrap();
        let first = BASE + PAGE * region.first;
        Space {
            maps,
            owners,
            brk: first + end,
            brk_low: first + end,
            brk_high: first + PAGE * region.pages - stack,
        }
    }

    /// The mappings, oldest first, the block at the head.
    pub fn maps(&self) -> &[Mapping]
        ensures maps { result.now ≡ self.now.maps }
        ensures mappings { AreMappings self.now.pages self.now.maps }
    {
        &self.maps
    }

    /// The table of own bytes, an entry for each page of memory.
    pub fn owners(&self) -> &Owners
        ensures own { owns result.now false ≡ own_in self.now.maps }
        ensures writable { owns result.now true ≡ writable_in self.now.maps }
        ensures pages { length result.now ≡ self.now.pages }
        ensures table { IsTable result.now self.now.maps }
    {
        &self.owners
    }

    /// Whether each of `len` bytes from `addr` on is own, and may be written where `write` asks for it.
    pub fn own(&self, addr: u32, len: u32, write: bool) -> bool
        ensures own { write ≡ false → result ≡ may_use (own_in self.now.maps) addr len }
        ensures writable { write ≡ true → result ≡ may_use (writable_in self.now.maps) addr len }
    {
        self.owners.own(addr, len, write)
    }

    /// Moves the break, if it may go there, and gives it as it is then.
    pub fn brk(&mut self, to: u32) -> u32
        ensures value { result ≡ next_brk self.old to }
        ensures held { self.new ≡ record self.old { brk = next_brk self.old to } }
    {
        if self.brk_low <= to && to <= self.brk_high {
            self.brk = to;
        }
        self.brk
    }

    /// Gives up all mappings: each gives up one use of its region, which keeps its id.
    pub fn release(self, regions: &mut Regions)
        requires { CanRelease regions.old.regions self.maps }
        ensures released { regions.new.regions ≡ released regions.old.regions self.maps }
        ensures uses { LoseUses regions.old.regions self.maps regions.new.regions }
        ensures ids { regions.new.starts ≡ regions.old.starts }
    {
        let Space { maps, .. } = self;
        release_all(&maps, regions);
    }
}

/// Each mapping gives up one use of its region.
fn release_all(maps: &[Mapping], regions: &mut Regions)
    requires { CanRelease regions.old.regions maps.now }
    ensures released { regions.new.regions ≡ released regions.old.regions maps.now }
    ensures ids { regions.new.starts ≡ regions.old.starts }
{
    for mapping in maps {
        let id = regions.at(mapping.first);
        regions.drop_use(id);
    }
}
