//! The relocation types: RISC-V ELF psABI, "Relocations".

ghost use Rattle.std.specs.Prelude.{◌≡◌};
ghost use Rattle.psabi_relocs.specs.Row.{row_of, width_len, field_len};

use crate::types::*;

/// How an instruction or a word has a value.
#[derive(Clone, Copy)]
pub enum Shape {
    /// A word of four bytes.
    Word,
    /// The upper 20 bits of a U-type instruction, rounded so that a signed low part completes them.
    High,
    /// The low 12 bits as the I immediate.
    LowI,
    /// The low 12 bits as the S immediate.
    LowS,
    /// The B immediate.
    Branch,
    /// The J immediate.
    Jump,
}

/// Which number the entries of a group change.
#[derive(Clone, Copy)]
pub enum Width {
    Bits8,
    Bits16,
    Bits32,
    /// The low six bits of a byte.
    Bits6,
    /// A number of ULEB128 form, of which the first byte is looked at.
    Uleb128,
}

/// What an entry of a group does to its number.
#[derive(Clone, Copy)]
pub enum Step {
    Add,
    Sub,
    Set,
}

/// A row of the table of relocation types: what is computed of S, A and P, and where it stands.
#[derive(Clone, Copy)]
pub enum Row {
    /// The type isn't in the table.
    Unknown,
    /// NONE, ALIGN or RELAX.
    Mark,
    /// S + A in a word: R_RISCV_32.
    Pointer,
    /// S + A in an instruction: HI20, LO12_I, LO12_S.
    Absolute(Shape),
    /// S + A - P: BRANCH, JAL, PCREL_HI20, 32_PCREL, PLT32.
    Relative(Shape),
    /// S + A - P in the pair AUIPC and JALR: CALL, CALL_PLT.
    Call,
    /// G - P, the distance to the symbol's slot: GOT_HI20.
    GotHi20,
    /// The low part of the value of another entry: PCREL_LO12_I, PCREL_LO12_S.
    Low(Shape),
    /// A step of a difference of symbols: ADD, SUB and SET of some width.
    Group(Width, Step),
}

impl Row {
    /// The row of a relocation type's number.
    #[tactic(auto, unfolding(crate::specs::Row::row_of))]
    #[inline(always)]
    pub fn of(kind: u8) -> Row
        ensures { result ≡ row_of kind }
    {
        match kind {
            R_RISCV_NONE => Row::Mark,
            R_RISCV_32 => Row::Pointer,
            R_RISCV_BRANCH => Row::Relative(Shape::Branch),
            R_RISCV_JAL => Row::Relative(Shape::Jump),
            R_RISCV_CALL => Row::Call,
            R_RISCV_CALL_PLT => Row::Call,
            R_RISCV_GOT_HI20 => Row::GotHi20,
            R_RISCV_PCREL_HI20 => Row::Relative(Shape::High),
            R_RISCV_PCREL_LO12_I => Row::Low(Shape::LowI),
            R_RISCV_PCREL_LO12_S => Row::Low(Shape::LowS),
            R_RISCV_HI20 => Row::Absolute(Shape::High),
            R_RISCV_LO12_I => Row::Absolute(Shape::LowI),
            R_RISCV_LO12_S => Row::Absolute(Shape::LowS),
            R_RISCV_ADD8 => Row::Group(Width::Bits8, Step::Add),
            R_RISCV_ADD16 => Row::Group(Width::Bits16, Step::Add),
            R_RISCV_ADD32 => Row::Group(Width::Bits32, Step::Add),
            R_RISCV_SUB8 => Row::Group(Width::Bits8, Step::Sub),
            R_RISCV_SUB16 => Row::Group(Width::Bits16, Step::Sub),
            R_RISCV_SUB32 => Row::Group(Width::Bits32, Step::Sub),
            R_RISCV_ALIGN => Row::Mark,
            R_RISCV_RELAX => Row::Mark,
            R_RISCV_SUB6 => Row::Group(Width::Bits6, Step::Sub),
            R_RISCV_SET6 => Row::Group(Width::Bits6, Step::Set),
            R_RISCV_SET8 => Row::Group(Width::Bits8, Step::Set),
            R_RISCV_SET16 => Row::Group(Width::Bits16, Step::Set),
            R_RISCV_SET32 => Row::Group(Width::Bits32, Step::Set),
            R_RISCV_32_PCREL => Row::Relative(Shape::Word),
            R_RISCV_PLT32 => Row::Relative(Shape::Word),
            R_RISCV_SET_ULEB128 => Row::Group(Width::Uleb128, Step::Set),
            R_RISCV_SUB_ULEB128 => Row::Group(Width::Uleb128, Step::Sub),
            _ => Row::Unknown,
        }
    }

    /// How many bytes from P on are the field.
    pub fn field_len(self) -> u32
        ensures { result ≡ field_len self }
    {
        match self {
            Row::Unknown | Row::Mark => 0,
            Row::Call => 8,
            Row::Group(width, _) => width.field_len(),
            _ => 4,
        }
    }
}

impl Width {
    /// How many bytes of the number are the field: of a ULEB128 number the first.
    fn field_len(self) -> u32
        ensures { result ≡ width_len self }
    {
        match self {
            Width::Bits8 | Width::Bits6 | Width::Uleb128 => 1,
            Width::Bits16 => 2,
            Width::Bits32 => 4,
        }
    }
}
