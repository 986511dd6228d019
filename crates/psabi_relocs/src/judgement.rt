//! The judgement of one kept relocation: its first fault, or its effect and its bytes.

ghost use Rattle.std.specs.Prelude.{◌≡◌, ◌<◌, true, None, Some, MatchResult};
ghost use Rattle.elf32_reader.specs.Relas.{is_kept, rela_count};
ghost use Rattle.flat_layout.specs.Rows.{has_numbers};
ghost use Rattle.psabi_relocs.specs.Fault.{reloc_fault};
ghost use Rattle.psabi_relocs.specs.Effect.{effect, spans, listed};
ghost use Rattle.psabi_relocs.specs.Judged.{Judges};
ghost use Rattle.psabi_relocs.specs.Index.{AreStored, IsPairs};

use crate::effect::Effect;
use crate::fault::RelocFault;
use crate::judged::JudgedEntry;
use crate::kept::KeptSection;
use crate::pairs::Pairs;
use crate::reloc::{Reloc, reloc_at};
use crate::row::Row;
use crate::spans::Spans;
use crate::stored::StoredSections;
use elf32_reader::Elf;

/// An accepted relocation.
#[derive(Clone, Copy)]
pub struct Checked {
    /// What a loader has to do for it.
    pub effect: Effect,
    /// The linked bytes that it has.
    pub spans: Spans,
}

impl KeptSection<'_, '_> {
    /// Judges a pointer, without any index.
    #[inline(always)]
    fn check_pointer(&self, reloc: &Reloc) -> Result<Checked, RelocFault>
        requires { reloc.now.row ≡ Row.Pointer }
        ensures { Judges self.now.file self.now.section reloc.now result }
    {
        match self.pointer_fault(reloc) {
            Some(fault) => Err(fault),
            None => Ok(Checked {
                effect: reloc.pointer_effect(),
                spans: reloc.pointer_spans(),
            }),
        }
    }
}

impl JudgedEntry<'_, '_> {
    /// Judges any entry.
    #[inline(always)]
    fn check(&self) -> Result<Checked, RelocFault>
        ensures { Judges self.now.file self.now.section self.now.reloc result }
    {
        match self.fault() {
            Some(fault) => Err(fault),
            None => Ok(Checked {
                effect: self.effect(),
                spans: self.spans(),
            }),
        }
    }
}

/// Judges entry `index` of the kept section `section`, of which `pairs` is the index.
///
/// # Errors
///
/// The first row of `RelocFault` that holds. It takes no memory.
#[tactic(auto, unfolding(crate::specs::Fault::reloc_fault, crate::specs::Effect::effect, crate::specs::Effect::spans))]
#[inline(always)]
pub fn check(
    elf: &Elf<'_>,
    stored: &StoredSections,
    pairs: &Pairs,
    section: u32,
    index: u32,
) -> Result<Checked, RelocFault>
    requires kept { is_kept elf.now section ≡ true }
    requires index { index < rela_count elf.now section }
    requires numbers { has_numbers elf.now ≡ true }
    requires stored { AreStored elf.now stored.now }
    requires pairs { IsPairs elf.now section pairs.now }
    ensures { MatchResult result
        (λ checked. (reloc_fault elf.now section index ≡ None)
        × (checked.effect ≡ effect elf.now section index)
        × (listed checked.spans ≡ spans elf.now section index))
        (λ fault. reloc_fault elf.now section index ≡ Some fault) }
{
    let reloc = reloc_at(elf, section, index);
    let kept = KeptSection {
        elf,
        stored,
        pairs,
        section,
    };
    match reloc.row {
        Row::Pointer => kept.check_pointer(&reloc),
        _ => kept.judged(reloc).check(),
    }
}

/// The bytes that an entry has, whether it has a fault or not.
#[tactic(auto, unfolding(crate::specs::Effect::spans))]
pub fn spans_at(
    elf: &Elf<'_>,
    stored: &StoredSections,
    pairs: &Pairs,
    section: u32,
    index: u32,
) -> Spans
    requires kept { is_kept elf.now section ≡ true }
    requires index { index < rela_count elf.now section }
    requires numbers { has_numbers elf.now ≡ true }
    requires stored { AreStored elf.now stored.now }
    requires pairs { IsPairs elf.now section pairs.now }
    ensures { listed result ≡ spans elf.now section index }
{
    let reloc = reloc_at(elf, section, index);
    let kept = KeptSection {
        elf,
        stored,
        pairs,
        section,
    };
    kept.judged(reloc).spans()
}
