//! Entries of kept relocation sections.

ghost use Rattle.std.specs.Prelude.{◌≡◌, [], ◌∷◌};
ghost use Rattle.std.specs.Option.{option_map, option_to_list};
ghost use Rattle.elf2flt_tool.specs.Faults.{entry_at};
ghost use Rattle.fault_texts.specs.Listing.{entries_of};

use elf2flt_tool::Fault;

/// Entry `index` of the kept relocation section `section`.
#[derive(Clone, Copy)]
pub struct EntryAt {
    pub section: u32,
    pub index: u32,
}

/// The entry that has a fault, if it is one of an entry.
pub fn entry_of(fault: &Fault) -> Option<EntryAt>
    ensures { option_to_list (option_map (λ entry. entry_at entry.section entry.index) result) ≡ entries_of fault.now }
{
    match *fault {
        Fault::Elf { .. } | Fault::Layout { .. } => None,
        Fault::Reloc { section, index, .. }
        | Fault::TargetOutside { section, index, .. }
        | Fault::WordOverlap { section, index, .. } => Some(EntryAt { section, index }),
    }
}
