//! Recorded words in the order of their numbers.

ghost use Rattle.std.specs.Prelude.{ℕ, ◌≡◌, ◌<◌, ◌++◌, map, IfOk, OnOk};
ghost use Rattle.std.specs.List.{AllByRecursion};
ghost use Rattle.elf2flt_tool.specs.Faults.{by_place, target_at, overlap_at};

use crate::conversion::address_of;
use crate::entry_word::EntryWord;
use crate::fault::Fault;
use flat_layout::Layout;
use std::alloc::AllocError;

/// Words by number; those of one number stay in their order.
pub fn by_place(mut words: Vec<EntryWord>) -> Result<Vec<EntryWord>, AllocError>
    ensures { IfOk result (λ sorted. (n : ℕ) → AllByRecursion (λ w. w.place < n) words.items → sorted.items ≡ by_place n words.items) }
{
    words.sort_by_key(|word| word.place)?;
    Ok(words)
}

/// Adds that the words point outside.
pub fn add_targets(
    faults: &mut Vec<Fault>,
    layout: &Layout,
    words: &[EntryWord],
) -> Result<(), AllocError>
    ensures { OnOk result (faults.new.items ≡ faults.old.items ++ map (target_at layout.now) words.now) }
{
    for word in words {
        faults.push(Fault::TargetOutside {
            place: address_of(layout, word.place),
            section: word.section,
            index: word.index,
        })?;
    }
    Ok(())
}

/// Adds that the words meet others.
pub fn add_overlaps(
    faults: &mut Vec<Fault>,
    layout: &Layout,
    words: &[EntryWord],
) -> Result<(), AllocError>
    ensures { OnOk result (faults.new.items ≡ faults.old.items ++ map (overlap_at layout.now) words.now) }
{
    for word in words {
        faults.push(Fault::WordOverlap {
            place: address_of(layout, word.place),
            section: word.section,
            index: word.index,
        })?;
    }
    Ok(())
}
