//! The walk over the kept relocations for the words that meet the bytes of others, by section and entry.

ghost use Rattle.std.specs.Prelude.{◌≡◌, ◌+◌, ◌<◌, ◌++◌, flat_map, true, IfOk, OnOk};
ghost use Rattle.std.specs.Option.{option_to_list};
ghost use Rattle.elf32_reader.specs.Relas.{is_kept, rela_count};
ghost use Rattle.psabi_relocs.specs.Index.{IsPairs};
ghost use Rattle.elf2flt_tool.specs.Cover.{listed};
ghost use Rattle.elf2flt_tool.specs.Faults.{entry_at, entries};
ghost use Rattle.elf2flt_tool.specs.Noted.{entries_before, met_in, met_by};

use crate::cover::Cover;
use crate::entry_word::EntryWord;
use crate::found::recorded_of;
use crate::noting::push_some;
use crate::overlap::is_met;
use crate::walk::Walk;
use flat_layout::Layout;
use psabi_relocs::{Pairs, Spans, check};
use std::alloc::{AllocError, Global};

/// The word of an entry with such bytes, if it meets the bytes of another.
fn met_in(
    cover: &Cover,
    layout: &Layout,
    section: u32,
    index: u32,
    spans: &Spans,
) -> Option<EntryWord>
    ensures { option_to_list result ≡ met_in layout.now cover.now (entry_at section index) (listed spans.now) }
{
    match recorded_of(layout, spans) {
        Some(word) if is_met(cover, &word) => Some(EntryWord {
            place: word.place,
            section,
            index,
        }),
        _ => None,
    }
}

/// Takes in the word of entry `entry` of the kept section `section`, if the entry is sound and its word meets another one.
fn add_entry(
    met: &mut Vec<EntryWord>,
    cover: &Cover,
    walk: &Walk<'_, '_>,
    pairs: &Pairs,
    section: u32,
    entry: u32,
) -> Result<(), AllocError>
    requires kept { is_kept walk.now section ≡ true }
    requires entry { entry < rela_count walk.now section }
    requires pairs { IsPairs walk.now section pairs.now }
    ensures { OnOk result (met.new.items ≡ met.old.items ++ met_by walk.now cover.now (entry_at section entry)) }
{
    match check(walk.elf, &walk.stored, pairs, section, entry) {
        Ok(checked) => {
            let word = met_in(cover, walk.layout, section, entry, &checked.spans);
            push_some(met, word)?;
            Ok(())
        }
        Err(_) => Ok(()),
    }
}

/// Takes in the words of the kept section `section`.
fn add_section(
    alloc: Global,
    met: &mut Vec<EntryWord>,
    cover: &Cover,
    walk: &Walk<'_, '_>,
    section: u32,
) -> Result<(), AllocError>
    requires kept { is_kept walk.now section ≡ true }
    requires met { met.old.items ≡ flat_map (met_by walk.now cover.now) (entries_before walk.now section 0) }
    ensures { OnOk result (met.new.items ≡ flat_map (met_by walk.now cover.now) (entries_before walk.now (section + 1) 0)) }
{
    let pairs = Pairs::of(alloc, walk.elf, section)?;
    for entry in 0..walk.elf.relas(section) {
        add_entry(met, cover, walk, &pairs, section, entry)?;
    }
    Ok(())
}

/// The words of sound entries that meet the bytes of other sound ones, which `cover` counts.
pub fn met_words(
    alloc: Global,
    cover: &Cover,
    walk: &Walk<'_, '_>,
) -> Result<Vec<EntryWord>, AllocError>
    ensures { IfOk result (λ met. met.items ≡ flat_map (met_by walk.now cover.now) (entries walk.now)) }
{
    let mut met = Vec::new(alloc);
    for section in 0..walk.elf.sections() {
        if walk.elf.kept(section) {
            add_section(alloc, &mut met, cover, walk, section)?;
        }
    }
    Ok(met)
}
