//! The walk over the kept relocations that notes the faults of all, by section and entry.

ghost use Rattle.std.specs.Prelude.{◌≡◌, ◌+◌, ◌^◌, ◌<◌, ◌++◌, true, None, IfOk, OnOk};
ghost use Rattle.std.specs.Option.{option_to_list};
ghost use Rattle.elf32_reader.specs.Relas.{is_kept, rela_count};
ghost use Rattle.flat_layout.specs.Layout.{size_of};
ghost use Rattle.psabi_relocs.specs.Index.{IsPairs};
ghost use Rattle.psabi_relocs.specs.Effect.{effect, spans, listed};
ghost use Rattle.psabi_relocs.specs.Fault.{reloc_fault};
ghost use Rattle.elf2flt_tool.specs.Faults.{word_of, outside_in, entry_at, entries, layout_faults};
ghost use Rattle.elf2flt_tool.specs.Noted.{IsNoted, entries_before};

use crate::cover::Cover;
use crate::entry_word::EntryWord;
use crate::fault::Fault;
use crate::found::note_spans;
use crate::noted::Noted;
use crate::target::points_outside;
use crate::walk::Walk;
use crate::word::Word;
use flat_layout::Layout;
use psabi_relocs::{Checked, Effect, Pairs, check};
use std::alloc::{AllocError, Global};

/// The word that a loader has to change, by numbers of the image.
fn word_of(layout: &Layout, effect: Effect) -> Option<Word>
    ensures { option_to_list result ≡ word_of layout.now effect }
{
    match effect {
        Effect::Still => None,
        Effect::Word { place, target } => Some(Word {
            place: layout.off(place),
            target: layout.off(target),
        }),
        Effect::Slot { place, target } => Some(Word {
            place: layout.off(place),
            target: layout.off(target),
        }),
    }
}

/// This word of an entry, if it points outside.
fn outside_in(layout: &Layout, section: u32, index: u32, effect: Effect) -> Option<EntryWord>
    requires { size_of layout.now < 2 ^ 32 }
    ensures { option_to_list result ≡ outside_in layout.now (entry_at section index) effect }
{
    let size = layout.text + layout.data_len + layout.bss;
    match word_of(layout, effect) {
        Some(word) if points_outside(size, &word) => Some(EntryWord {
            place: word.place,
            section,
            index,
        }),
        _ => None,
    }
}

/// Notes a word, if there is one.
pub fn push_some(words: &mut Vec<EntryWord>, word: Option<EntryWord>) -> Result<(), AllocError>
    ensures { OnOk result (words.new.items ≡ words.old.items ++ option_to_list word) }
{
    if let Some(word) = word {
        words.push(word)?;
    }
    Ok(())
}

/// Notes a sound entry.
fn note_sound(
    noted: &mut Noted,
    walk: &Walk<'_, '_>,
    section: u32,
    entry: u32,
    checked: &Checked,
) -> Result<(), AllocError>
    requires kept { is_kept walk.now section ≡ true }
    requires sound { reloc_fault walk.now section entry ≡ None }
    requires effect { checked.now.effect ≡ effect walk.now section entry }
    requires spans { listed checked.now.spans ≡ spans walk.now section entry }
    requires noted { IsNoted walk.now (entries_before walk.now section entry) noted.old }
    ensures { OnOk result (IsNoted walk.now (entries_before walk.now section (entry + 1)) noted.new) }
{
    note_spans(&mut noted.cover, walk.layout, &checked.spans)?;
    let word = outside_in(walk.layout, section, entry, checked.effect);
    push_some(&mut noted.outside, word)?;
    Ok(())
}

/// Notes entry `entry` of the kept section `section`.
fn note_entry(
    noted: &mut Noted,
    walk: &Walk<'_, '_>,
    pairs: &Pairs,
    section: u32,
    entry: u32,
) -> Result<(), AllocError>
    requires kept { is_kept walk.now section ≡ true }
    requires entry { entry < rela_count walk.now section }
    requires pairs { IsPairs walk.now section pairs.now }
    requires noted { IsNoted walk.now (entries_before walk.now section entry) noted.old }
    ensures { OnOk result (IsNoted walk.now (entries_before walk.now section (entry + 1)) noted.new) }
{
    match check(walk.elf, &walk.stored, pairs, section, entry) {
        Ok(checked) => note_sound(noted, walk, section, entry, &checked),
        Err(fault) => {
            noted.faults.push(Fault::Reloc {
                section,
                index: entry,
                fault,
            })?;
            Ok(())
        }
    }
}

/// Notes the entries of the kept section `section`.
fn note_section(
    alloc: Global,
    noted: &mut Noted,
    walk: &Walk<'_, '_>,
    section: u32,
) -> Result<(), AllocError>
    requires kept { is_kept walk.now section ≡ true }
    requires noted { IsNoted walk.now (entries_before walk.now section 0) noted.old }
    ensures { OnOk result (IsNoted walk.now (entries_before walk.now (section + 1) 0) noted.new) }
{
    let pairs = Pairs::of(alloc, walk.elf, section)?;
    for entry in 0..walk.elf.relas(section) {
        note_entry(noted, walk, &pairs, section, entry)?;
    }
    Ok(())
}

/// Notes all entries, behind the faults of the layout.
pub fn note_all(alloc: Global, walk: &Walk<'_, '_>, faults: Vec<Fault>) -> Result<Noted, AllocError>
    requires { faults.items ≡ layout_faults walk.now }
    ensures { IfOk result (λ noted. IsNoted walk.now (entries walk.now) noted) }
{
    let layout = walk.layout;
    let outside = Vec::new(alloc);
    let cover = Cover::new(alloc, (layout.text + layout.data_len) as usize);
    let mut noted = Noted {
        faults,
        outside,
        cover,
    };
    for section in 0..walk.elf.sections() {
        if walk.elf.kept(section) {
            note_section(alloc, &mut noted, walk, section)?;
        }
    }
    Ok(noted)
}
