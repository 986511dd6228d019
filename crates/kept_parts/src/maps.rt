//! Pages that are mapped and unmapped (Linux, mmap(2), munmap(2), in this project's profile).

ghost use Rattle.std.specs.Prelude.{◌≡◌, ℕ, ◌*◌, ◌^◌, ◌<◌, ◌++◌, [], ◌∷◌, ◌&&◌, if◌then◌else◌, true, List, length, take, drop, slice_get, slice_index, Some, is_some, is_ok, IfOk, OnErr};
ghost use Rattle.call_log.specs.Numbers as numbers;
ghost use Rattle.page_runs.specs.Choosers.{IsChooser, kind_of};
ghost use Rattle.page_runs.specs.declared.place.Kind.{Kind};
ghost use Rattle.mem_files.specs.Inodes.{bytes_of};
ghost use Rattle.mmap_rules.specs.Held.{Held};
ghost use Rattle.mmap_rules.specs.Want.{wanted, AsksPages};
ghost use Rattle.mmap_rules.specs.Copies.{wanted_bytes};
ghost use Rattle.mmap_rules.specs.MapState.{CanMap, MapState, NameRegions, file_in};
ghost use Rattle.mmap_rules.specs.MapState.{mapped as mapped_in};
ghost use Rattle.vfork_exec.specs.Procs.{Lives};
ghost use Rattle.mmap_rules.specs.Mappings.{hit, file_pages};
ghost use Rattle.machine_world.specs.MapCalls.{mapped, unmaps};
ghost use Rattle.machine_world.specs.Recordings.{is_recorded, with_brought};
ghost use Rattle.kept_parts.specs.Regular.{HasSpace};
ghost use Rattle.kept_parts.specs.Copies.{HoldsFiles};
ghost use Rattle.kept_parts.specs.Stands.{About, world_of};
ghost use Rattle.kept_parts.specs.Calls.{Caller, RoomFor, asked_by, ChangesParts};
ghost use Rattle.kept_parts.specs.Recorded.{room_beside};
ghost use Rattle.kept_parts.specs.Leaves.{MapLeaves};
ghost use Rattle.kept_parts.specs.MapsIn.{MapsIn, UnmapsIn, IsAddress, IsWanted, is_file, status_of};

use crate::keep::or_unreserve;
use crate::kept::KeptParts;
use crate::reply::finish;
use call_log::Errno;
use file_calls::Call;
use mem_files::Tree;
use mmap_rules::{MapFault, Space, Want, fits, page_bytes};
use nommu_regions::Regions;
use page_runs::{Chooser, Run};
use phys_mem::{PAGE, PhysMem};
use recordings::Recording;
use std::alloc::{AllocError, Global};

/// What is to be mapped in which space.
#[derive(Clone, Copy)]
struct Asked {
    /// The number of the space.
    space: u32,
    want: Want,
}

/// Maps what is wanted in a space that lives.
fn map_in<F: Fn(&[Run], u32) -> Option<usize>>(
    spaces: &mut [Option<Space>],
    regions: &mut Regions,
    mem: &mut PhysMem,
    tree: &Tree,
    asked: Asked,
    chooser: &Chooser<F>,
) -> Result<u32, MapFault>
    requires chooser { IsChooser F.pre F.post chooser.now }
    requires home { HasSpace spaces.old asked.space }
    requires fits { (h : Held) → slice_get spaces.old asked.space ≡ Some (Some h) → CanMap h regions.old.regions mem.old }
    requires want { AsksPages asked.want }
    ensures ids { regions.new.starts ≡ regions.old.starts }
    ensures maps { (h : Held) → slice_get spaces.old asked.space ≡ Some (Some h) →
        MapsIn (kind_of chooser.now) (bytes_of tree.now (file_in asked.want)) asked.want asked.space h spaces.old spaces.new regions.old.regions regions.new.regions mem.old mem.new result }
{
    match &mut spaces[asked.space as usize] {
        Some(space) => space.map(regions, mem, tree, asked.want, chooser),
        None => unreachable!(),
    }
}

/// Unmaps pages in a space that lives.
fn unmap_in(
    spaces: &mut [Option<Space>],
    number: u32,
    regions: &mut Regions,
    addr: u32,
    len: u32,
) -> Result<(), Errno>
    requires home { HasSpace spaces.old number }
    requires pages { (h : Held) → slice_get spaces.old number ≡ Some (Some h) → h.pages ≡ length regions.old.regions }
    requires names { (h : Held) → slice_get spaces.old number ≡ Some (Some h) → NameRegions regions.old.regions h.maps }
    ensures { (h : Held) → slice_get spaces.old number ≡ Some (Some h) →
        UnmapsIn addr len number h spaces.old spaces.new regions.old.regions regions.new.regions result }
{
    match &mut spaces[number as usize] {
        Some(space) => {
            // For its clause: the mappings lie in pages of memory.
            let _mappings = space.maps();
            space.unmap(regions, addr, len)
        }
        None => unreachable!(),
    }
}

/// Pages of a file, from its page `first` on, with zeros past its end.
fn file_pages(alloc: Global, bytes: &[u8], first: u32, pages: u32) -> Result<Vec<u8>, AllocError>
    ensures bytes { IfOk result (λ made. made.items ≡ file_pages bytes.now first pages) }
    ensures few { IfOk result (λ made. length made.items < 2 ^ 44) }
{
    let size = (u64::from(PAGE) * u64::from(pages)) as usize;
    let mut made = Vec::with_capacity(alloc, size)?;
    made.extend_from_slice(page_bytes(bytes, first, pages))?;
    made.resize(size, 0)?;
    Ok(made)
}

/// Records what a mapping of a file brings, if it goes into the space that is recorded and comes about where there is memory for it.
/// Whether it is recorded is the result.
fn bring(
    alloc: Global,
    recording: &mut Recording,
    regions: &Regions,
    tree: &Tree,
    asked: Asked,
) -> Result<bool, AllocError>
    requires few { with_brought recording.old.brought 0 < 2 ^ 63 }
    requires want { AsksPages asked.want }
    ensures same { OnErr result (recording.new ≡ recording.old) }
    ensures brings { IfOk result (λ done. recording.new ≡ record recording.old { brought = recording.old.brought ++ (if done then wanted_bytes tree.now asked.want ∷ [] else []) }) }
    ensures done { IfOk result (λ done. (s : MapState) → (kind : Kind) → (bytes : List ℕ) → s.regions ≡ regions.now.regions →
        done ≡ (is_recorded recording.old asked.space && is_file asked.want && is_some (mapped_in s kind bytes asked.want))) }
{
    let Want::File {
        pages,
        first,
        id,
        ..
    } = asked.want
    else {
        return Ok(false);
    };
    if !recording.has(asked.space) || !fits(regions, asked.want) {
        return Ok(false);
    }
    recording.bring(file_pages(alloc, tree.bytes(id), first, pages)?)?;
    Ok(true)
}

/// What was recorded of a mapping is taken back, where it didn't come about.
fn settle_brought(recording: &mut Recording, brings: bool, mapped: Result<u32, MapFault>)
    ensures { (lists : List (List ℕ)) → (bytes : List ℕ) → recording.old.brought ≡ lists ++ (if brings then bytes ∷ [] else []) →
        recording.new ≡ record recording.old { brought = lists ++ (if brings && is_ok mapped then bytes ∷ [] else []) } }
{
    if brings && mapped.is_err() {
        recording.take_back();
    }
}

/// The reply of an mmap2 by what the mapping answers.
fn address(mapped: Result<u32, MapFault>) -> Result<u32, AllocError>
    ensures { IsAddress mapped result }
{
    match mapped {
        Ok(addr) => Ok(addr),
        Err(MapFault::Enomem) => Ok(Errno::Enomem.refusal()),
        Err(MapFault::Memory) => Err(AllocError),
    }
}

/// The reply of a munmap by what the unmapping answers.
fn status(unmapped: Result<(), Errno>) -> u32
    ensures { result ≡ status_of unmapped }
{
    match unmapped {
        Ok(()) => 0,
        Err(errno) => errno.refusal(),
    }
}

impl KeptParts {
    /// Maps what an mmap2 asks for, and notes the call. There is room for its note. What a file's mapping brings into the space that is
    /// recorded is recorded, where there is room for it too.
    pub fn map<F: Fn(&[Run], u32) -> Option<usize>>(
        &mut self,
        call: Call,
        want: Want,
        chooser: &Chooser<F>,
    ) -> Result<(), AllocError>
        requires chooser { IsChooser F.pre F.post chooser.now }
        requires lives { Lives self.old.procs call.pid }
        requires room { room_beside self.old (length call.sent.items) ≡ true }
        requires brings { (a : About) → a.kind ≡ kind_of chooser.now → (c : Caller self.old call) →
            RoomFor (world_of a self.old) (asked_by a c) (mapped (asked_by a c) want) }
        requires wanted { IsWanted self.old.tree call want }
        ensures leaves { MapLeaves (kind_of chooser.now) call want self.old self.new result }
        ensures lives { Lives self.new.procs call.pid }
    {
        self.log.reserve(1)?;
        let number = self.procs.get(call.pid).space;
        let alloc = *self.console.allocator();
        let asked = Asked {
            space: number,
            want,
        };
        let bringing = bring(alloc, &mut self.recording, &self.regions, &self.tree, asked);
        let brings = or_unreserve(&mut self.log, bringing)?;
        let mapped = map_in(
            &mut self.spaces,
            &mut self.regions,
            &mut self.mem,
            &self.tree,
            asked,
            chooser,
        );
        settle_brought(&mut self.recording, brings, mapped);
        let value = or_unreserve(&mut self.log, address(mapped))?;
        let got = Vec::new(alloc);
        self.recording.pass(number, 1);
        finish(&mut self.procs, &mut self.log, call, value, got);
        Ok(())
    }

    /// Unmaps what a munmap asks for, and notes the call. There is room for its note.
    pub fn unmap(&mut self, call: Call) -> Result<(), AllocError>
        requires lives { Lives self.old.procs call.pid }
        requires room { room_beside self.old (length call.sent.items) ≡ true }
        requires munmap { call.number ≡ numbers.munmap }
        ensures memory { self.new.mem ≡ self.old.mem }
        ensures holds { HoldsFiles self.old → HoldsFiles self.new }
        ensures changes { (a : About) → (c : Caller self.old call) →
            ChangesParts a self.old c.entry c.held call (unmaps (asked_by a c) (hit c.held.maps (slice_index call.args 0) (slice_index call.args 1))) self.new result }
    {
        self.log.reserve(1)?;
        let number = self.procs.get(call.pid).space;
        let unmapped = unmap_in(
            &mut self.spaces,
            number,
            &mut self.regions,
            call.args[0],
            call.args[1],
        );
        let value = status(unmapped);
        let got = Vec::new(*self.console.allocator());
        self.recording.pass(number, 1);
        finish(&mut self.procs, &mut self.log, call, value, got);
        Ok(())
    }
}
