//! The linked file, laid in the ELF file's own place.

ghost use Rattle.std.specs.Prelude.{◌≡◌, ℕ, ◌+◌, ◌-◌, ◌<◌, ◌≤◌, ◌++◌, true, None, length, map, take, drop, replicate, IfOk, IfSome};
ghost use Rattle.elf32_reader.specs.Accepted.{IsAccepted};
ghost use Rattle.elf32_reader.specs.Header.{count_of};
ghost use Rattle.elf32_reader.specs.Sections.{section};
ghost use Rattle.byte_words.specs.Patches.{laid, painted, bytes_below};
ghost use Rattle.bflt_format.specs.Flat.{behind_header};
ghost use Rattle.flat_layout.specs.Layout.{layout as layout_of};
ghost use Rattle.flat_layout.specs.Fault.{layout_fault};
ghost use Rattle.flat_layout.specs.Numbering.{has_bytes};
ghost use Rattle.elf2flt_tool.specs.Slides.{slid_patch, section_slide, AreSlides, IsSlid, GoDown, end_of};

use crate::image::HEADER_LEN;
use crate::slide::Slide;
use elf32_reader::Elf;
use flat_layout::{Layout, has_bytes};
use std::alloc::{AllocError, Global};

/// Where a section's bytes stand in both files.
fn slide_of(elf: &Elf<'_>, layout: &Layout, index: u32) -> Slide
    requires accepted { IsAccepted elf.now }
    requires no_fault { layout_fault elf.now ≡ None }
    requires layout { layout.now ≡ layout_of elf.now }
    requires index { index < count_of elf.now }
    requires bytes { has_bytes (section elf.now index) ≡ true }
    ensures { result ≡ section_slide elf.now index }
{
    let section = elf.section(index);
    Slide {
        from: section.offset,
        to: HEADER_LEN + layout.off(section.addr),
        len: section.size,
    }
}

/// The slides that make an ELF file its linked file in its own place. None where they aren't needed, or where the order of the sections
/// doesn't let them: where one of them would move up, or over bytes of a section before it.
pub fn slides_of(
    alloc: Global,
    elf: &Elf<'_>,
    layout: &Layout,
) -> Result<Option<Vec<Slide>>, AllocError>
    requires no_fault { layout_fault elf.now ≡ None }
    requires layout { layout.now ≡ layout_of elf.now }
    ensures { IfOk result (λ found. IfSome found (λ slides. AreSlides elf.now slides.items)) }
{
    let mut slides = Vec::new(alloc);
    let mut end = HEADER_LEN;
    for index in 0..elf.sections() {
        if has_bytes(&elf.section(index)) {
            let slide = slide_of(elf, layout, index);
            if slide.to < end || slide.from < slide.to {
                return Ok(None);
            }
            end = slide.to + slide.len;
            slides.push(slide)?;
        }
    }
    if slides.is_empty() {
        return Ok(None);
    }
    Ok(Some(slides))
}

/// Moves bytes of a file down, so many at a time as they move by: what is written then is never still to be read.
fn move_down(file: &mut [u8], slide: Slide)
    requires down { slide.to ≤ slide.from }
    requires inside { slide.from + slide.len ≤ length file.old }
    ensures { file.new ≡ laid file.old slide.to (take slide.len (drop slide.from file.old)) }
{
    let (from, to, len) = (slide.from as usize, slide.to as usize, slide.len as usize);
    if from == to {
        return;
    }
    let mut done = 0;
    while done < len {
        let count = (len - done).min(from - to);
        let (before, behind) = file.split_at_mut(from + done);
        before[to + done..to + done + count].copy_from_slice(&behind[..count]);
        done += count;
    }
}

/// Clears a file from `end` up to where bytes slide to, and moves these.
fn slide_down(file: &mut [u8], end: usize, slide: Slide)
    requires end { end ≤ slide.to }
    requires down { slide.to ≤ slide.from }
    requires inside { slide.from + slide.len ≤ length file.old }
    ensures { file.new ≡ take end file.old ++ (replicate (slide.to - end) 0 ++ (take slide.len (drop slide.from file.old) ++ drop (slide.to + slide.len) file.old)) }
{
    file[end..slide.to as usize].fill(0);
    move_down(file, slide);
}

/// Moves the bytes of all slides, clears what stands between them, and tells where the last ends.
fn slide_all(file: &mut [u8], slides: &[Slide]) -> usize
    requires header { 64 ≤ length file.old }
    requires down { GoDown (length file.old) 64 slides.now }
    ensures end { result ≡ end_of 64 slides.now }
    ensures slid { IsSlid file.old file.new result slides.now }
{
    let mut end = HEADER_LEN as usize;
    for slide in slides {
        slide_down(file, end, *slide);
        end = slide.to as usize + slide.len as usize;
    }
    end
}

/// The linked file of `len` bytes, in the place of the ELF file that slides so.
pub fn slid_file(mut file: Vec<u8>, slides: &[Slide], len: usize) -> Result<Vec<u8>, AllocError>
    requires header { 64 ≤ length file.items }
    requires down { GoDown (length file.items) 64 slides.now }
    requires fits { end_of 64 slides.now ≤ len }
    ensures header { IfOk result (λ linked. 64 ≤ length linked.items) }
    ensures image { IfOk result (λ linked. behind_header linked.items ≡ bytes_below (len - 64) (painted (map (slid_patch file.items) slides.now) (λ n. 0))) }
{
    let end = slide_all(&mut file, slides);
    file.truncate(end);
    file.resize(len, 0)?;
    Ok(file)
}
