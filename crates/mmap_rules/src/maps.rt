//! Mappings that come (Linux, mmap(2) and "No-MMU memory mapping support").

ghost use Rattle.std.specs.Prelude.{ℕ, List, ◌≡◌, ◌+◌, ◌-◌, ◌*◌, ◌^◌, ◌<◌, ◌≤◌, [], ◌∷◌, ◌++◌, false, Some, None, Err, OnOk, IfSome, is_some, length, option_map, take, drop, vec_capacity};
ghost use Rattle.std.specs.List.{sum_by};
ghost use Rattle.page_runs.specs.Choosers.{IsChooser, kind_of};
ghost use Rattle.page_runs.specs.Place.{place};
ghost use Rattle.mem_files.specs.Inodes.{bytes_of};
ghost use Rattle.nommu_regions.specs.declared.region.Source.TheVariants.{Own};
ghost use Rattle.nommu_regions.specs.Regions.{free_of};
ghost use Rattle.nommu_regions.specs.Ids.{Lives, region_of, start_of};
ghost use Rattle.mmap_rules.specs.declared.map_fault.MapFault.TheVariants.{Enomem};
ghost use Rattle.mmap_rules.specs.Held.{IsKept, places_of};
ghost use Rattle.page_runs.specs.declared.place.Kind.{Kind};
ghost use Rattle.mmap_rules.specs.Want.{AsksPages};
ghost use Rattle.mmap_rules.specs.Copies.{AllHold, HoldWanted, IsKnown};
ghost use Rattle.mmap_rules.specs.Mappings.{run_mapping, part_mapping, copied_from, filled, IsNewRun, CopyHas, CanAdd};
ghost use Rattle.mmap_rules.specs.Chosen.{part_at, part_for, new_run, bytes_copied, file_source};
ghost use Rattle.mmap_rules.specs.MapState.{MapState, map_state, mapped, in_fresh_run, in_copy, file_in, Maps, CanMap, LiesIn};

use crate::map_fault::MapFault;
use crate::mapping::{Mapping, Range};
use crate::owners::Owners;
use crate::pages::{NewRun, Part};
use crate::space::Space;
use crate::want::Want;
use mem_files::Tree;
use nommu_regions::{Region, Regions, Source};
use page_runs::{Chooser, Run};
use phys_mem::{BASE, PAGE, PhysMem};
use std::alloc::AllocError;

/// The pages of a copy that can be shared, if there are any.
fn part_for(regions: &Regions, want: Want) -> Option<Part>
    requires { AsksPages want }
    ensures part { option_map (part_at regions.now) result ≡ part_for regions.now.regions want }
    ensures live { IfSome result (λ part. Lives regions.now part.copy) }
    ensures copy { IfSome result (λ part. CopyHas regions.now.regions (start_of regions.now part.copy) part.first part.pages) }
    ensures some { IfSome result (λ part. 0 < part.pages) }
{
    let Want::File {
        pages,
        first,
        write: false,
        id,
        change,
    } = want
    else {
        return None;
    };
    let copy = regions.find(id, change, first, pages)?;
    Some(Part { copy, first, pages })
}

/// How many pages are wanted.
fn pages_of(want: Want) -> u32
    ensures { result ≡ (new_run want).pages }
{
    match want {
        Want::Anon { pages } | Want::File { pages, .. } => pages,
    }
}

/// Whether what is wanted would be mapped now: a copy that is there has its pages, or a free run is long enough. Nothing is done.
pub fn fits(regions: &Regions, want: Want) -> bool
    requires { AsksPages want }
    ensures { (s : MapState) → (kind : Kind) → (bytes : List ℕ) → s.regions ≡ regions.now.regions → result ≡ is_some (mapped s kind bytes want) }
{
    part_for(regions, want).is_some() || regions.fits(pages_of(want))
}

/// The run of its own that is wanted, and the bytes with which it begins.
fn new_run(tree: &Tree, want: Want) -> (NewRun, &[u8])
    requires { AsksPages want }
    ensures run { result.0 ≡ new_run want }
    ensures bytes { result.1.now ≡ bytes_copied (bytes_of tree.now (file_in want)) want }
    ensures new { IsNewRun result.0.pages result.0.writes result.0.anonymous result.0.source }
    ensures fits { length result.1.now ≤ 4096 * result.0.pages }
{
    match want {
        Want::Anon { pages } => {
            let run = NewRun {
                pages,
                writes: true,
                anonymous: true,
                source: Source::Own,
            };
            (run, &[])
        }
        Want::File {
            pages,
            first,
            write,
            id,
            change,
        } => {
            let run = NewRun {
                pages,
                writes: write,
                anonymous: false,
                source: file_source(write, id, change, first),
            };
            (run, page_bytes(tree.bytes(id), first, pages))
        }
    }
}

/// What pages of a file are that are copied in: pages that are written aren't shared.
fn file_source(write: bool, file: u32, change: u64, first: u32) -> Source
    ensures { result ≡ file_source write file change first }
{
    if write {
        return Source::Own;
    }
    Source::Copy {
        file,
        change,
        first,
    }
}

/// The `pages` pages of a file from its page `first` on, as far as it goes.
pub fn page_bytes(bytes: &[u8], first: u32, pages: u32) -> &[u8]
    ensures { result.now ≡ take (4096 * pages) (drop (4096 * first) bytes.now) }
{
    let page = u64::from(PAGE);
    let from = (page * u64::from(first)).min(bytes.len() as u64) as usize;
    let left = &bytes[from..];
    let count = (page * u64::from(pages)).min(left.len() as u64) as usize;
    &left[..count]
}

/// The places in the list that the mappings may need.
fn places(maps: &[Mapping]) -> usize
    requires { sum_by places_of maps.now < 2 ^ 63 }
    ensures { result ≡ sum_by places_of maps.now }
{
    let mut total = 0;
    for mapping in maps {
        total += if mapping.range.anonymous {
            mapping.pages as usize
        } else {
            1
        };
    }
    total
}

/// Takes memory for a mapping that may need so many places.
fn make_room(maps: &mut Vec<Mapping>, more: u32) -> Result<(), AllocError>
    requires some { length maps.old.items ≤ sum_by places_of maps.old.items }
    requires room { sum_by places_of maps.old.items ≤ vec_capacity maps.old }
    ensures items { maps.new.items ≡ maps.old.items }
    ensures kept { sum_by places_of maps.old.items ≤ vec_capacity maps.new }
    ensures room { OnOk result (sum_by places_of maps.old.items + more ≤ vec_capacity maps.new) }
{
    let spare = places(maps) - maps.len();
    maps.reserve(spare + more as usize)
}

/// A mapping more, for which there is room.
fn add_mapping(maps: &mut Vec<Mapping>, owners: &mut Owners, mapping: Mapping)
    requires kept { IsKept owners.old maps.old.items (vec_capacity maps.old) }
    requires can { CanAdd owners.old mapping }
    requires room { sum_by places_of maps.old.items + places_of mapping ≤ vec_capacity maps.old }
    ensures maps { maps.new.items ≡ maps.old.items ++ mapping ∷ [] }
    ensures kept { IsKept owners.new maps.new.items (vec_capacity maps.new) }
    ensures pages { length owners.new ≡ length owners.old }
{
    owners.add(&mapping.range);
    maps.push_reserved(mapping);
}

/// All of a run of pages.
fn run_mapping(first: u32, run: &NewRun) -> Mapping
    requires { first + run.now.pages ≤ 16384 }
    ensures { result ≡ run_mapping first run.now.pages run.now.writes run.now.anonymous run.now.source }
{
    Mapping {
        first,
        pages: run.pages,
        range: Range {
            from: BASE + PAGE * first,
            size: PAGE * run.pages,
            writes: run.writes,
            anonymous: run.anonymous,
        },
        source: run.source,
    }
}

/// The wanted pages of a copy that has them, from the file's page `first` on. They may be read.
fn part_mapping(region: &Region, first: u32, pages: u32) -> Mapping
    requires from { copied_from region.now.source ≤ first }
    requires to { region.now.first + (first - copied_from region.now.source) + pages ≤ 16384 }
    ensures { result ≡ part_mapping region.now.first region.now.pages region.now.source (first - copied_from region.now.source) pages }
{
    let from = match region.source {
        Source::Own => 0,
        Source::Copy { first, .. } => first,
    };
    Mapping {
        first: region.first,
        pages: region.pages,
        range: Range {
            from: BASE + PAGE * (region.first + (first - from)),
            size: PAGE * pages,
            writes: false,
            anonymous: false,
        },
        source: region.source,
    }
}

impl Space {
    /// Maps pages of a copy that is there, from the file's page `first` on.
    fn map_part(
        &mut self,
        regions: &mut Regions,
        copy: u32,
        first: u32,
        pages: u32,
    ) -> Result<u32, MapFault>
        requires lies { LiesIn self.old regions.old.regions }
        requires some { 0 < pages }
        requires copy { CopyHas regions.old.regions (start_of regions.old copy) first pages }
        ensures maps { (mem : List ℕ) → Maps (in_copy (map_state self.old regions.old.regions mem) first pages (region_of regions.old copy)) (map_state self.old regions.old.regions mem) (map_state self.new regions.new.regions mem) result }
        ensures ids { regions.new.starts ≡ regions.old.starts }
    {
        let _memory = regions.pages();
        make_room(&mut self.maps, 1)?;
        let region = regions.region(copy);
        regions.add_use(copy);
        let mapping = part_mapping(&region, first, pages);
        add_mapping(&mut self.maps, &mut self.owners, mapping);
        Ok(mapping.range.from)
    }

    /// Maps a run of its own that begins with these bytes; what is behind them is zero.
    fn map_fresh<F: Fn(&[Run], u32) -> Option<usize>>(
        &mut self,
        regions: &mut Regions,
        mem: &mut PhysMem,
        run: &NewRun,
        bytes: &[u8],
        chooser: &Chooser<F>,
    ) -> Result<u32, MapFault>
        requires chooser { IsChooser F.pre F.post chooser.now }
        requires can { CanMap self.old regions.old.regions mem.old }
        requires run { IsNewRun run.now.pages run.now.writes run.now.anonymous run.now.source }
        requires bytes { length bytes.now ≤ 4096 * run.now.pages }
        ensures maps { Maps (in_fresh_run (map_state self.old regions.old.regions mem.old) (kind_of chooser.now) run.now.pages run.now.writes run.now.anonymous run.now.source (filled (4096 * run.now.pages) bytes.now)) (map_state self.old regions.old.regions mem.old) (map_state self.new regions.new.regions mem.new) result }
        ensures refused { is_some (place (kind_of chooser.now) (free_of regions.old.regions).runs run.now.pages) ≡ false → result ≡ Err Enomem }
        ensures ids { regions.new.starts ≡ regions.old.starts }
    {
        let most = regions.pages();
        if !regions.fits(run.pages) {
            return Err(MapFault::Enomem);
        }
        let places = if run.anonymous { run.pages } else { 1 };
        prove!(places <= most);
        make_room(&mut self.maps, places)?;
        let Some(id) = regions.fresh(mem, run.pages, run.source, chooser) else {
            return Err(MapFault::Enomem);
        };
        let first = regions.region(id).first;
        mem.copy_in(BASE + PAGE * first, bytes);
        add_mapping(&mut self.maps, &mut self.owners, run_mapping(first, run));
        Ok(BASE + PAGE * first)
    }

    /// Maps what is wanted, and gives the address of its first byte. Pages of a file that aren't written are shared with the lowest
    /// copy that has them, where there is one; all else gets a run of its own. Each region keeps its id, and a refusal changes nothing.
    /// Where no run fits it asks for no memory.
    pub fn map<F: Fn(&[Run], u32) -> Option<usize>>(
        &mut self,
        regions: &mut Regions,
        mem: &mut PhysMem,
        tree: &Tree,
        want: Want,
        chooser: &Chooser<F>,
    ) -> Result<u32, MapFault>
        requires chooser { IsChooser F.pre F.post chooser.now }
        requires can { CanMap self.old regions.old.regions mem.old }
        requires want { AsksPages want }
        ensures maps { Maps (mapped (map_state self.old regions.old.regions mem.old) (kind_of chooser.now) (bytes_of tree.now (file_in want)) want) (map_state self.old regions.old.regions mem.old) (map_state self.new regions.new.regions mem.new) result }
        ensures refused { mapped (map_state self.old regions.old.regions mem.old) (kind_of chooser.now) (bytes_of tree.now (file_in want)) want ≡ None → result ≡ Err Enomem }
        ensures ids { regions.new.starts ≡ regions.old.starts }
        ensures copies { AllHold regions.old.regions mem.old tree.now → IsKnown tree.now want → HoldWanted tree.now want regions.new.regions mem.new result }
    {
        let _pages = regions.pages();
        match part_for(regions, want) {
            Some(part) => self.map_part(regions, part.copy, part.first, part.pages),
            None => {
                let (run, bytes) = new_run(tree, want);
                self.map_fresh(regions, mem, &run, bytes, chooser)
            }
        }
    }
}
