//! What a walk over the kept relocations takes of each of them.

ghost use Rattle.std.specs.Prelude.{◌≡◌, ℕ, List, ◌++◌, OnOk};
ghost use Rattle.std.specs.List.{AllByRecursion};
ghost use Rattle.std.specs.Option.{option_to_list};
ghost use Rattle.elf2flt_tool.specs.Cover.{listed, IsInside, IsWord, IsCover, HasRoom, recorded_of};

use crate::cover::Cover;
use crate::overlap::Recorded;
use flat_layout::Layout;
use psabi_relocs::{Span, Spans};
use std::alloc::AllocError;

/// The recorded word among the bytes of a relocation.
pub fn recorded_of(layout: &Layout, spans: &Spans) -> Option<Recorded>
    ensures { option_to_list result ≡ recorded_of layout.now (listed spans.now) }
{
    let own = spans.own;
    match spans.slot {
        None if own.recorded => Some(Recorded {
            place: layout.off(own.place),
            instruction: None,
        }),
        Some(slot) if slot.recorded => Some(Recorded {
            place: layout.off(slot.place),
            instruction: Some(layout.off(own.place)),
        }),
        _ => None,
    }
}

/// Takes in the bytes of a relocation.
pub fn note_spans(cover: &mut Cover, layout: &Layout, spans: &Spans) -> Result<(), AllocError>
    requires inside { AllByRecursion (IsInside layout.now cover.old.len) (listed spans.now) }
    requires words { AllByRecursion IsWord (listed spans.now) }
    requires room { HasRoom cover.old }
    ensures { OnOk result ((n : ℕ) (ss : List Span) → IsCover layout.now n ss cover.old → IsCover layout.now n (ss ++ listed spans.now) cover.new) }
{
    cover.add(layout, &spans.own)?;
    if let Some(slot) = spans.slot {
        cover.add(layout, &slot)?;
    }
    Ok(())
}
