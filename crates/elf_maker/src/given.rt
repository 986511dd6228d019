//! What a file is made of.

/// A section with content, or one without where its type is NOBITS (8).
#[derive(Drop)]
pub struct Part {
    /// sh_type.
    pub kind: u32,
    /// sh_flags.
    pub flags: u32,
    /// sh_addr: the address of its first byte in the running program.
    pub addr: u32,
    /// sh_size, in bytes.
    pub size: u32,
    /// All its bytes, or none where it is NOBITS.
    pub bytes: Vec<u8>,
}

/// A symbol.
#[derive(Drop)]
pub struct MakeSymbol {
    /// Without the zero that ends it.
    pub name: Vec<u8>,
    pub value: u32,
    /// The binding times 16, plus the type.
    pub info: u8,
    /// The index of the section that it belongs to, or a special one as SHN_ABS.
    pub shndx: u16,
}

/// A relocation with an addend.
#[derive(Clone, Copy)]
pub struct MakeRela {
    /// The index of its part. The part's section is the one after it.
    pub part: u32,
    /// r_offset: the linked address of its field.
    pub offset: u32,
    /// The index of its symbol, where 0 is the empty symbol and the given ones are those from 1 on.
    pub symbol: u32,
    /// The relocation's type.
    pub kind: u8,
    pub addend: i32,
}
