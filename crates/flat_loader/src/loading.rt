//! Loading: a program into a block that is there, and a program with a block and a space of its own.

ghost use Rattle.std.specs.Prelude.{◌≡◌, ◌+◌, ◌*◌, ◌%◌, ◌^◌, ◌<◌, ◌≤◌, length, replicate, true, slice_index, slice_set};
ghost use Rattle.byte_words.specs.Patches.{painted};
ghost use Rattle.phys_mem.specs.Memory.{Within};
ghost use Rattle.page_runs.specs.Choosers.{IsChooser, kind_of};
ghost use Rattle.bflt_format.specs.Spelling.{words_text, header_words};
ghost use Rattle.mmap_rules.specs.Space.{page_size};
ghost use Rattle.flat_loader.specs.Original.{flat_original, block_len as block_len_of};
ghost use Rattle.flat_loader.specs.Frame.{texts, frame_fits};
ghost use Rattle.flat_loader.specs.Placed.{image_patches};
ghost use Rattle.flat_loader.specs.Begin.{flat_loading, begin_regs};
ghost use Rattle.flat_loader.specs.Loads.{Loads, RefusesLoad, StandsInBlock, load_refusal};

use crate::block::{HEADER_LEN, block_len, block_pages, image_len, stack_len};
use crate::frame::{frame_fits, frame_len, frame_start, write_frame};
use crate::image::link_words;
use crate::loaded::{LoadRefusal, Loaded};
use bflt_format::Flat;
use byteorder::{BigEndian, ByteOrder};
use mmap_rules::{Space, SpaceRoom};
use nommu_regions::{Regions, Source};
use page_runs::{Chooser, Run};
use phys_mem::{BASE, PAGE, PhysMem};
use rv32im_step::Regs;
use std::alloc::Global;

/// The 64 bytes of the header that is written for a flat file.
fn header_bytes(flat: &Flat) -> [u8; 64]
    ensures { result ≡ words_text (header_words flat.now) }
{
    let mut bytes = [0; 64];
    BigEndian::write_u32_into(&flat.header(), &mut bytes);
    bytes
}

/// The registers at the start: `pc` at the entry, the stack pointer in x2, and 0 in all others.
fn start_regs(pc: u32, sp: u32) -> Regs
    ensures { result ≡ record { pc = pc; x = slice_set (replicate 32 0) 2 sp } }
{
    let mut x = [0; 32];
    x[2] = sp;
    Regs { pc, x }
}

/// Writes all of a program's block but the frame: header, image, and zeros.
fn write_image(mem: &mut PhysMem, block: u32, flat: &Flat)
    requires within { Within mem.old block (block_len_of (flat_original flat.now)) }
    requires memory { length mem.old ≤ 2 ^ 26 }
    ensures bytes { slice_index mem.new ≡ painted (image_patches flat.now block) (slice_index mem.old) }
    ensures length { length mem.new ≡ length mem.old }
{
    let image = block + HEADER_LEN;
    mem.clear(block, block_len(flat));
    mem.copy_in(block, &header_bytes(flat));
    mem.copy_in(image, flat.body());
    link_words(mem, image, flat.body(), flat.records());
}

/// Loads a flat program into the block of memory that begins at an address, with its arguments and its
/// environment on the stack, and gives its first registers.
///
/// The file's header stands in the first 64 bytes, which are not the program's own: with the flags and the
/// stack that the file has, the records right behind the data, and build date and fillers 0.
pub fn load_at(
    mem: &mut PhysMem,
    block: u32,
    flat: &Flat,
    args: &[Vec<u8>],
    env: &[Vec<u8>],
) -> Regs
    requires fits { frame_fits (flat_original flat.now) (texts args.now) (texts env.now) ≡ true }
    requires page { block % page_size ≡ 0 }
    requires within { Within mem.old block (block_len_of (flat_original flat.now)) }
    ensures regs { result ≡ begin_regs (flat_loading flat.now block (texts args.now) (texts env.now)) }
    ensures stands { StandsInBlock flat.now (flat_loading flat.now block (texts args.now) (texts env.now)) mem.old mem.new }
{
    let _pages = mem.pages();
    write_image(mem, block, flat);
    let sp = frame_start(block + block_len(flat), frame_len(args, env) as u32);
    write_frame(mem, sp, args, env);
    start_regs(block + flat.entry(), sp)
}

/// Loads a flat program: its block goes into the free run that the chooser picks, and becomes a region with
/// one use. Each region keeps its id, and a refusal changes neither regions nor memory.
pub fn load<F: Fn(&[Run], u32) -> Option<usize>>(
    alloc: Global,
    regions: &mut Regions,
    mem: &mut PhysMem,
    flat: &Flat,
    args: &[Vec<u8>],
    env: &[Vec<u8>],
    chooser: &Chooser<F>,
) -> Result<Loaded, LoadRefusal>
    requires chooser { IsChooser F.pre F.post chooser.now }
    requires memory { length mem.old ≡ 4096 * length regions.old.regions }
    ensures loads { Loads (kind_of chooser.now) flat.now (texts args.now) (texts env.now) regions.old.regions mem.old regions.new.regions mem.new result }
    ensures refused { RefusesLoad (load_refusal (kind_of chooser.now) flat.now (texts args.now) (texts env.now) regions.old.regions) result }
    ensures ids { regions.new.starts ≡ regions.old.starts }
{
    if !frame_fits(flat, args, env) {
        return Err(LoadRefusal::E2big);
    }
    let pages = block_pages(flat);
    if !regions.fits(pages) {
        return Err(LoadRefusal::NoRun);
    }
    let Ok(room) = SpaceRoom::new(alloc, regions.pages()) else {
        return Err(LoadRefusal::Memory);
    };
    let Some(id) = regions.fresh(mem, pages, Source::Own, chooser) else {
        return Err(LoadRefusal::NoRun);
    };
    let base = BASE + PAGE * regions.region(id).first;
    let regs = load_at(mem, base, flat, args, env);
    let end = HEADER_LEN + image_len(flat);
    let space = Space::new(room, regions, id, end, stack_len(flat));
    Ok(Loaded {
        space,
        regs,
        base,
        pages,
    })
}
