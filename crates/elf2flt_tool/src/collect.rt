//! The walk over the kept relocations, by section and entry.

ghost use Rattle.std.specs.Prelude.{◌≡◌, ◌+◌, ◌<◌, ◌⊎◌, true, Some, None, MatchResult};
ghost use Rattle.elf32_reader.specs.Header.{count_of};
ghost use Rattle.elf32_reader.specs.Relas.{is_kept, rela_count};
ghost use Rattle.psabi_relocs.specs.Index.{IsPairs};
ghost use Rattle.elf2flt_tool.specs.Fault.{entry_fault, section_fault, relocs_fault};
ghost use Rattle.elf2flt_tool.specs.Walk.{IsFound};

use crate::cover::Cover;
use crate::found::note_spans;
use crate::refusal::Refusal;
use crate::walk::Walk;
use psabi_relocs::{Pairs, check};
use std::alloc::Global;

/// Takes in entry `entry` of the kept section `section`.
fn add_entry(
    cover: &mut Cover,
    walk: &Walk<'_, '_>,
    pairs: &Pairs,
    section: u32,
    entry: u32,
) -> Result<(), Refusal>
    requires kept { is_kept walk.now section ≡ true }
    requires entry { entry < rela_count walk.now section }
    requires pairs { IsPairs walk.now section pairs.now }
    requires found { IsFound walk.now section entry cover.old }
    ensures { MatchResult result
        (λ _. (entry_fault walk.now section entry ≡ None) × IsFound walk.now section (entry + 1) cover.new)
        (λ refusal. (refusal ≡ Refusal.Memory) ⊎ (entry_fault walk.now section entry ≡ Some refusal)) }
{
    match check(walk.elf, &walk.stored, pairs, section, entry) {
        Ok(checked) => {
            note_spans(cover, walk.layout, &checked.spans)?;
            Ok(())
        }
        Err(fault) => Err(Refusal::Reloc {
            section,
            index: entry,
            fault,
        }),
    }
}

/// Takes in the entries of the kept section `section`.
fn add_section(
    alloc: Global,
    cover: &mut Cover,
    walk: &Walk<'_, '_>,
    section: u32,
) -> Result<(), Refusal>
    requires kept { is_kept walk.now section ≡ true }
    requires found { IsFound walk.now section 0 cover.old }
    ensures { MatchResult result
        (λ _. (section_fault walk.now section ≡ None) × IsFound walk.now (section + 1) 0 cover.new)
        (λ refusal. (refusal ≡ Refusal.Memory) ⊎ (section_fault walk.now section ≡ Some refusal)) }
{
    let pairs = Pairs::of(alloc, walk.elf, section)?;
    for entry in 0..walk.elf.relas(section) {
        add_entry(cover, walk, &pairs, section, entry)?;
    }
    Ok(())
}

/// Which bytes belong to the kept relocations, or the first of their faults by section and entry.
pub fn cover_all(alloc: Global, walk: &Walk<'_, '_>) -> Result<Cover, Refusal>
    ensures { MatchResult result
        (λ cover. (relocs_fault walk.now ≡ None) × IsFound walk.now (count_of walk.now) 0 cover)
        (λ refusal. (refusal ≡ Refusal.Memory) ⊎ (relocs_fault walk.now ≡ Some refusal)) }
{
    let layout = walk.layout;
    let mut cover = Cover::new(alloc, (layout.text + layout.data_len) as usize);
    for section in 0..walk.elf.sections() {
        if walk.elf.kept(section) {
            add_section(alloc, &mut cover, walk, section)?;
        }
    }
    Ok(cover)
}
