//! What a walk over the kept relocations of a file goes by.

ghost use Rattle.std.specs.Prelude.{◌≡◌, true, IfOk};
ghost use Rattle.flat_layout.specs.Layout.{layout as layout_of};
ghost use Rattle.flat_layout.specs.Rows.{has_numbers};

use elf32_reader::Elf;
use flat_layout::Layout;
use psabi_relocs::StoredSections;
use std::alloc::{AllocError, Global};
use std::marker::Model;

/// A file whose bytes have numbers, with its layout and the index of its stored sections. Contracts see the file.
#[derive(Drop)]
pub struct Walk<'a, 'b> {
    pub elf: &'a Elf<'b>,
    pub layout: &'a Layout,
    pub stored: StoredSections,
}

impl<'a, 'b> Model for Walk<'a, 'b> {
    ghost use Rattle.std.specs.Prelude.{ℕ, List};
    ghost use Rattle.elf2flt_tool.specs.Walk.{IsReady};

    ghost Value = { List ℕ };

    ghost view = { λ s. s.elf.now };

    ghost invariant = { λ s. IsReady s.elf.now s.layout.now s.stored };
}

impl<'a, 'b> Walk<'a, 'b> {
    /// A walk over the relocations of a file.
    pub fn of(
        alloc: Global,
        elf: &'a Elf<'b>,
        layout: &'a Layout,
    ) -> Result<Walk<'a, 'b>, AllocError>
        requires numbers { has_numbers elf.now ≡ true }
        requires layout { layout.now ≡ layout_of elf.now }
        ensures { IfOk result (λ walk. walk ≡ elf.now) }
    {
        let stored = StoredSections::of(alloc, elf)?;
        Ok(Walk {
            elf,
            layout,
            stored,
        })
    }
}
