//! Bytes that slide.

/// Bytes of an ELF file that its linked file has at no higher offset.
#[derive(Clone, Copy)]
pub struct Slide {
    /// Their offset in the ELF file.
    pub from: u32,
    /// Their offset in the linked file, whose header has 64 bytes.
    pub to: u32,
    /// How many they are.
    pub len: u32,
}
