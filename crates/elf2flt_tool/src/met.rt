//! The lowest recorded word that meets the bytes of another relocation.

ghost use Rattle.std.specs.Prelude.{◌≡◌, ◌+◌, ◌<◌, ◌++◌, List, true, None, IfOk};
ghost use Rattle.elf32_reader.specs.Header.{count_of};
ghost use Rattle.elf32_reader.specs.Relas.{is_kept, rela_count};
ghost use Rattle.flat_layout.specs.Rows.{has_numbers};
ghost use Rattle.psabi_relocs.specs.Index.{IsPairs};
ghost use Rattle.elf2flt_tool.specs.Fault.{relocs_fault};
ghost use Rattle.elf2flt_tool.specs.Word.{word_overlap};
ghost use Rattle.elf2flt_tool.specs.Cover.{listed, recorded_of, lowest_met, counted};
ghost use Rattle.elf2flt_tool.specs.Walk.{IsFound, recorded_before};

use crate::cover::Cover;
use crate::found::recorded_of;
use crate::overlap::{Recorded, is_met, lower, some_plain_met};
use crate::walk::Walk;
use flat_layout::Layout;
use psabi_relocs::{Pairs, Spans, spans_at};
use std::alloc::{AllocError, Global};

/// The lower of `least` and the number of a relocation's recorded word, if that meets another entry.
fn lower_of(cover: &Cover, layout: &Layout, spans: &Spans, least: Option<u32>) -> Option<u32>
    ensures { (rs : List Recorded) → least ≡ lowest_met cover.now rs → result ≡ lowest_met cover.now (rs ++ recorded_of layout.now (listed spans.now)) }
{
    match recorded_of(layout, spans) {
        Some(word) if is_met(cover, &word) => Some(lower(word.place, least)),
        _ => least,
    }
}

/// The same of entry `entry` of the kept section `section`.
fn lower_in_entry(
    cover: &Cover,
    walk: &Walk<'_, '_>,
    pairs: &Pairs,
    section: u32,
    entry: u32,
    least: Option<u32>,
) -> Option<u32>
    requires kept { is_kept walk.now section ≡ true }
    requires entry { entry < rela_count walk.now section }
    requires pairs { IsPairs walk.now section pairs.now }
    requires least { least ≡ lowest_met cover.now (recorded_before walk.now section entry) }
    ensures { result ≡ lowest_met cover.now (recorded_before walk.now section (entry + 1)) }
{
    let spans = spans_at(walk.elf, &walk.stored, pairs, section, entry);
    lower_of(cover, walk.layout, &spans, least)
}

/// The same of all entries of the kept section `section`.
fn lower_in_section(
    alloc: Global,
    cover: &Cover,
    walk: &Walk<'_, '_>,
    section: u32,
    before: Option<u32>,
) -> Result<Option<u32>, AllocError>
    requires kept { is_kept walk.now section ≡ true }
    requires before { before ≡ lowest_met cover.now (recorded_before walk.now section 0) }
    ensures { IfOk result (λ least. least ≡ lowest_met cover.now (recorded_before walk.now (section + 1) 0)) }
{
    let pairs = Pairs::of(alloc, walk.elf, section)?;
    let mut least = before;
    for entry in 0..walk.elf.relas(section) {
        least = lower_in_entry(cover, walk, &pairs, section, entry, least);
    }
    Ok(least)
}

/// The lowest recorded word that meets another entry, by another walk over the relocations.
fn lowest_met(alloc: Global, cover: &Cover, walk: &Walk<'_, '_>) -> Result<Option<u32>, AllocError>
    requires relocs { relocs_fault walk.now ≡ None }
    requires found { IsFound walk.now (count_of walk.now) 0 cover.now }
    ensures { IfOk result (λ met. met ≡ word_overlap walk.now) }
{
    let mut least = None;
    for section in 0..walk.elf.sections() {
        if walk.elf.kept(section) {
            least = lower_in_section(alloc, cover, walk, section, least)?;
        }
    }
    Ok(least)
}

/// The lowest recorded word that meets another relocation, of those at the places that `cover` counts. In most files none
/// does, even where slots are taken for plain words: then the relocations aren't walked over again.
pub fn lowest_overlap(
    alloc: Global,
    cover: &Cover,
    walk: &Walk<'_, '_>,
    places: &[u32],
) -> Result<Option<u32>, AllocError>
    requires numbers { has_numbers walk.now ≡ true }
    requires relocs { relocs_fault walk.now ≡ None }
    requires found { IsFound walk.now (count_of walk.now) 0 cover.now }
    requires places { places.now ≡ counted cover.now.words.items }
    ensures { IfOk result (λ met. met ≡ word_overlap walk.now) }
{
    if some_plain_met(cover, places) {
        lowest_met(alloc, cover, walk)
    } else {
        Ok(None)
    }
}
