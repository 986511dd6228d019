//! What is replayed.

use bflt_format::Flat;

/// A program that is to be replayed.
#[derive(Clone, Copy)]
pub enum Original<'a> {
    /// A linked ELF file, with the stack of the items.
    Elf { bytes: &'a [u8] },
    /// A flat file, with its own stack. That of the items isn't looked at.
    Flat { flat: &'a Flat },
}
