//! The numbers of the relocation types, in their order: RISC-V ELF psABI, "Relocations".

pub const R_RISCV_NONE: u8 = 0;

pub const R_RISCV_32: u8 = 1;

pub const R_RISCV_BRANCH: u8 = 16;

pub const R_RISCV_JAL: u8 = 17;

pub const R_RISCV_CALL: u8 = 18;

pub const R_RISCV_CALL_PLT: u8 = 19;

pub const R_RISCV_GOT_HI20: u8 = 20;

pub const R_RISCV_PCREL_HI20: u8 = 23;

pub const R_RISCV_PCREL_LO12_I: u8 = 24;

pub const R_RISCV_PCREL_LO12_S: u8 = 25;

pub const R_RISCV_HI20: u8 = 26;

pub const R_RISCV_LO12_I: u8 = 27;

pub const R_RISCV_LO12_S: u8 = 28;

pub const R_RISCV_ADD8: u8 = 33;

pub const R_RISCV_ADD16: u8 = 34;

pub const R_RISCV_ADD32: u8 = 35;

pub const R_RISCV_SUB8: u8 = 37;

pub const R_RISCV_SUB16: u8 = 38;

pub const R_RISCV_SUB32: u8 = 39;

pub const R_RISCV_ALIGN: u8 = 43;

pub const R_RISCV_RELAX: u8 = 51;

pub const R_RISCV_SUB6: u8 = 52;

pub const R_RISCV_SET6: u8 = 53;

pub const R_RISCV_SET8: u8 = 54;

pub const R_RISCV_SET16: u8 = 55;

pub const R_RISCV_SET32: u8 = 56;

pub const R_RISCV_32_PCREL: u8 = 57;

pub const R_RISCV_PLT32: u8 = 59;

pub const R_RISCV_SET_ULEB128: u8 = 60;

pub const R_RISCV_SUB_ULEB128: u8 = 61;
