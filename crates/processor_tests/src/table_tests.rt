//! Words that binutils' assembler made (`as -march=rv32im_zifencei`), with its text beside each, and
//! words beside the rows of the table.

use rv32im_table::*;
use std::test::*;

/// An instruction by its mnemonic, rd, rs1, rs2 and immediate. A field that its format hasn't is 0.
type Fields = (&'static str, u8, u8, u8, u32);

fn fields(instr: Instr) -> Fields {
    match instr {
        Instr::Lui { rd, imm } => ("lui", rd, 0, 0, imm),
        Instr::Auipc { rd, imm } => ("auipc", rd, 0, 0, imm),
        Instr::Jal { rd, imm } => ("jal", rd, 0, 0, imm),
        Instr::Jalr { rd, rs1, imm } => ("jalr", rd, rs1, 0, imm),
        Instr::Beq { rs1, rs2, imm } => ("beq", 0, rs1, rs2, imm),
        Instr::Bne { rs1, rs2, imm } => ("bne", 0, rs1, rs2, imm),
        Instr::Blt { rs1, rs2, imm } => ("blt", 0, rs1, rs2, imm),
        Instr::Bge { rs1, rs2, imm } => ("bge", 0, rs1, rs2, imm),
        Instr::Bltu { rs1, rs2, imm } => ("bltu", 0, rs1, rs2, imm),
        Instr::Bgeu { rs1, rs2, imm } => ("bgeu", 0, rs1, rs2, imm),
        Instr::Lb { rd, rs1, imm } => ("lb", rd, rs1, 0, imm),
        Instr::Lh { rd, rs1, imm } => ("lh", rd, rs1, 0, imm),
        Instr::Lw { rd, rs1, imm } => ("lw", rd, rs1, 0, imm),
        Instr::Lbu { rd, rs1, imm } => ("lbu", rd, rs1, 0, imm),
        Instr::Lhu { rd, rs1, imm } => ("lhu", rd, rs1, 0, imm),
        Instr::Sb { rs1, rs2, imm } => ("sb", 0, rs1, rs2, imm),
        Instr::Sh { rs1, rs2, imm } => ("sh", 0, rs1, rs2, imm),
        Instr::Sw { rs1, rs2, imm } => ("sw", 0, rs1, rs2, imm),
        Instr::Addi { rd, rs1, imm } => ("addi", rd, rs1, 0, imm),
        Instr::Slti { rd, rs1, imm } => ("slti", rd, rs1, 0, imm),
        Instr::Sltiu { rd, rs1, imm } => ("sltiu", rd, rs1, 0, imm),
        Instr::Xori { rd, rs1, imm } => ("xori", rd, rs1, 0, imm),
        Instr::Ori { rd, rs1, imm } => ("ori", rd, rs1, 0, imm),
        Instr::Andi { rd, rs1, imm } => ("andi", rd, rs1, 0, imm),
        Instr::Slli { rd, rs1, imm } => ("slli", rd, rs1, 0, imm),
        Instr::Srli { rd, rs1, imm } => ("srli", rd, rs1, 0, imm),
        Instr::Srai { rd, rs1, imm } => ("srai", rd, rs1, 0, imm),
        Instr::Add { rd, rs1, rs2 } => ("add", rd, rs1, rs2, 0),
        Instr::Sub { rd, rs1, rs2 } => ("sub", rd, rs1, rs2, 0),
        Instr::Sll { rd, rs1, rs2 } => ("sll", rd, rs1, rs2, 0),
        Instr::Slt { rd, rs1, rs2 } => ("slt", rd, rs1, rs2, 0),
        Instr::Sltu { rd, rs1, rs2 } => ("sltu", rd, rs1, rs2, 0),
        Instr::Xor { rd, rs1, rs2 } => ("xor", rd, rs1, rs2, 0),
        Instr::Srl { rd, rs1, rs2 } => ("srl", rd, rs1, rs2, 0),
        Instr::Sra { rd, rs1, rs2 } => ("sra", rd, rs1, rs2, 0),
        Instr::Or { rd, rs1, rs2 } => ("or", rd, rs1, rs2, 0),
        Instr::And { rd, rs1, rs2 } => ("and", rd, rs1, rs2, 0),
        Instr::Mul { rd, rs1, rs2 } => ("mul", rd, rs1, rs2, 0),
        Instr::Mulh { rd, rs1, rs2 } => ("mulh", rd, rs1, rs2, 0),
        Instr::Mulhsu { rd, rs1, rs2 } => ("mulhsu", rd, rs1, rs2, 0),
        Instr::Mulhu { rd, rs1, rs2 } => ("mulhu", rd, rs1, rs2, 0),
        Instr::Div { rd, rs1, rs2 } => ("div", rd, rs1, rs2, 0),
        Instr::Divu { rd, rs1, rs2 } => ("divu", rd, rs1, rs2, 0),
        Instr::Rem { rd, rs1, rs2 } => ("rem", rd, rs1, rs2, 0),
        Instr::Remu { rd, rs1, rs2 } => ("remu", rd, rs1, rs2, 0),
        Instr::Fence => ("fence", 0, 0, 0, 0),
        Instr::FenceI => ("fence.i", 0, 0, 0, 0),
        Instr::Ecall => ("ecall", 0, 0, 0, 0),
        Instr::Ebreak => ("ebreak", 0, 0, 0, 0),
    }
}

/// Words, each with the instruction that it is.
static ROWS: [(u32, Fields); 54] = [
    (0xffff_f2b7, ("lui", 5, 0, 0, 0xffff_f000)), // lui x5, 0xfffff
    (0x1234_5fb7, ("lui", 31, 0, 0, 0x1234_5000)), // lui x31, 0x12345
    (0x0000_3097, ("auipc", 1, 0, 0, 0x0000_3000)), // auipc x1, 0x3
    (0x8000_0517, ("auipc", 10, 0, 0, 0x8000_0000)), // auipc x10, 0x80000
    (0x7fe0_00ef, ("jal", 1, 0, 0, 2046)), // jal x1, .+0x7fe
    (0x8000_006f, ("jal", 0, 0, 0, 0xfff0_0000)), // jal x0, .-0x100000
    (0x7fff_f7ef, ("jal", 15, 0, 0, 0x000f_fffe)), // jal x15, .+0xffffe
    (0x8040_80e7, ("jalr", 1, 1, 0, 0xffff_f804)), // jalr x1, -2044(x1)
    (0x7fff_8067, ("jalr", 0, 31, 0, 2047)), // jalr x0, 2047(x31)
    (0x8020_8063, ("beq", 0, 1, 2, 0xffff_f000)), // beq x1, x2, .-4096
    (0x7e41_9fe3, ("bne", 0, 3, 4, 4094)), // bne x3, x4, .+4094
    (0x0062_c0e3, ("blt", 0, 5, 6, 2048)), // blt x5, x6, .+2048
    (0xfe83_dfe3, ("bge", 0, 7, 8, 0xffff_fffe)), // bge x7, x8, .-2
    (0x00a4_ef63, ("bltu", 0, 9, 10, 30)), // bltu x9, x10, .+30
    (0xfec5_f063, ("bgeu", 0, 11, 12, 0xffff_f7e0)), // bgeu x11, x12, .-2080
    (0xfff7_0683, ("lb", 13, 14, 0, 0xffff_ffff)), // lb x13, -1(x14)
    (0x0028_1783, ("lh", 15, 16, 0, 2)), // lh x15, 2(x16)
    (0x7ff9_2883, ("lw", 17, 18, 0, 2047)), // lw x17, 2047(x18)
    (0x800a_4983, ("lbu", 19, 20, 0, 0xffff_f800)), // lbu x19, -2048(x20)
    (0x555b_5a83, ("lhu", 21, 22, 0, 1365)), // lhu x21, 1365(x22)
    (0xff7c_0fa3, ("sb", 0, 24, 23, 0xffff_ffff)), // sb x23, -1(x24)
    (0x559d_1aa3, ("sh", 0, 26, 25, 1365)), // sh x25, 1365(x26)
    (0x81be_2023, ("sw", 0, 28, 27, 0xffff_f800)), // sw x27, -2048(x28)
    (0xffff_0e93, ("addi", 29, 30, 0, 0xffff_ffff)), // addi x29, x30, -1
    (0x7ff0_af93, ("slti", 31, 1, 0, 2047)), // slti x31, x1, 2047
    (0x8001_b113, ("sltiu", 2, 3, 0, 0xffff_f800)), // sltiu x2, x3, -2048
    (0x5552_c213, ("xori", 4, 5, 0, 1365)), // xori x4, x5, 1365
    (0xaaa3_e313, ("ori", 6, 7, 0, 0xffff_faaa)), // ori x6, x7, -1366
    (0x0ff4_f413, ("andi", 8, 9, 0, 255)), // andi x8, x9, 255
    (0x01f5_9513, ("slli", 10, 11, 0, 31)), // slli x10, x11, 31
    (0x0016_d613, ("srli", 12, 13, 0, 1)), // srli x12, x13, 1
    (0x4107_d713, ("srai", 14, 15, 0, 16)), // srai x14, x15, 16
    (0x0031_00b3, ("add", 1, 2, 3, 0)), // add x1, x2, x3
    (0x4062_8233, ("sub", 4, 5, 6, 0)), // sub x4, x5, x6
    (0x0094_13b3, ("sll", 7, 8, 9, 0)), // sll x7, x8, x9
    (0x00c5_a533, ("slt", 10, 11, 12, 0)), // slt x10, x11, x12
    (0x00f7_36b3, ("sltu", 13, 14, 15, 0)), // sltu x13, x14, x15
    (0x0128_c833, ("xor", 16, 17, 18, 0)), // xor x16, x17, x18
    (0x015a_59b3, ("srl", 19, 20, 21, 0)), // srl x19, x20, x21
    (0x418b_db33, ("sra", 22, 23, 24, 0)), // sra x22, x23, x24
    (0x01bd_6cb3, ("or", 25, 26, 27, 0)), // or x25, x26, x27
    (0x01ee_fe33, ("and", 28, 29, 30, 0)), // and x28, x29, x30
    (0x0220_8fb3, ("mul", 31, 1, 2, 0)), // mul x31, x1, x2
    (0x0252_11b3, ("mulh", 3, 4, 5, 0)), // mulh x3, x4, x5
    (0x0283_a333, ("mulhsu", 6, 7, 8, 0)), // mulhsu x6, x7, x8
    (0x02b5_34b3, ("mulhu", 9, 10, 11, 0)), // mulhu x9, x10, x11
    (0x02e6_c633, ("div", 12, 13, 14, 0)), // div x12, x13, x14
    (0x0318_57b3, ("divu", 15, 16, 17, 0)), // divu x15, x16, x17
    (0x0349_e933, ("rem", 18, 19, 20, 0)), // rem x18, x19, x20
    (0x037b_7ab3, ("remu", 21, 22, 23, 0)), // remu x21, x22, x23
    (0x0330_000f, ("fence", 0, 0, 0, 0)), // fence rw, rw
    (0x0000_100f, ("fence.i", 0, 0, 0, 0)), // fence.i
    (0x0000_0073, ("ecall", 0, 0, 0, 0)), // ecall
    (0x0010_0073, ("ebreak", 0, 0, 0, 0)), // ebreak
];

/// Words that are no instruction.
static NONE: [u32; 38] = [
    0xffff_f2b6, // lui with opcode 36
    0xffff_f2bf, // opcode 3f
    0x0000_3096, // auipc with opcode 16
    0x7fe0_00ee, // jal with opcode 6e
    0x8020_8062, // beq with opcode 62
    0x0031_00b2, // add with opcode 32
    0x0031_00bb, // addw of RV64
    0x0000_100e, // fence.i with opcode 0e
    0x0000_0072, // ecall with opcode 72
    0x0000_0000, // no word of any extension
    0xffff_ffff, // all ones
    0x8040_90e7, // jalr with funct3 1
    0x8020_a063, // branch with funct3 2
    0x8020_b063, // branch with funct3 3
    0xfff7_3683, // ld of RV64
    0xfff7_6683, // lwu of RV64
    0xfff7_7683, // load with funct3 7
    0x81be_3023, // sd of RV64
    0x81be_7023, // store with funct3 7
    0x0000_200f, // cbo of Zicbom, fence with funct3 2
    0x03f5_9513, // slli by 63 of RV64
    0x41f5_9513, // slli with funct7 20
    0x0216_d613, // srli by 33 of RV64
    0x4307_d713, // srai by 48 of RV64
    0x6107_d713, // srai with funct7 30
    0x0431_00b3, // add with funct7 02
    0x4231_00b3, // sub with funct7 21
    0x4094_13b3, // sll with funct7 20
    0x418b_fb33, // andn of Zbb
    0x428b_db33, // sra with funct7 21
    0x0620_8fb3, // mul with funct7 03
    0x0020_0073, // uret
    0x1050_0073, // wfi
    0x3020_0073, // mret
    0x3001_10f3, // csrrw x1,mstatus,x2
    0x0000_00f3, // ecall with rd 1
    0x0000_8073, // ecall with rs1 1
    0x0010_00f3, // ebreak with rd 1
];

/// The first word that is decoded otherwise.
fn other_fields() -> Option<u32> {
    for &(word, want) in &ROWS {
        if decode(word).map(fields) != Some(want) {
            return Some(word);
        }
    }
    None
}

/// The first of these that is decoded at all.
fn decoded() -> Option<u32> {
    for &word in &NONE {
        if decode(word).is_some() {
            return Some(word);
        }
    }
    None
}

#[test]
fn decodes(rt: HostRuntime) {
    assert!(rt; other_fields().is_none() && decoded().is_none());
}

/// The formats with an immediate.
#[derive(Clone, Copy)]
enum Format {
    I,
    S,
    B,
    U,
    J,
}

fn immediate(format: Format, word: u32) -> u32 {
    match format {
        Format::I => imm_i(word),
        Format::S => imm_s(word),
        Format::B => imm_b(word),
        Format::U => imm_u(word),
        Format::J => imm_j(word),
    }
}

fn replaced(format: Format, word: u32, value: u32) -> u32 {
    match format {
        Format::I => set_i(word, value),
        Format::S => set_s(word, value),
        Format::B => set_b(word, value),
        Format::U => set_u(word, value),
        Format::J => set_j(word, value),
    }
}

/// Words with their immediates. 0x3000 and -2044 together are the distance of the call below.
static IMMEDIATES: [(Format, u32, u32); 6] = [
    (Format::I, 0x8040_80e7, 0xffff_f804), // jalr x1,-2044(x1)
    (Format::I, 0x8050_80e7, 0xffff_f805), // jalr x1,-2043(x1)
    (Format::S, 0x559d_1aa3, 1365), // sh x25,1365(x26)
    (Format::B, 0x7e41_9fe3, 4094), // bne x3,x4,.+4094
    (Format::U, 0x0000_3097, 0x3000), // auipc x1,0x3
    (Format::J, 0x8000_006f, 0xfff0_0000), // jal x0,.-0x100000
];

fn other_immediate() -> Option<u32> {
    for &(format, word, want) in &IMMEDIATES {
        if immediate(format, word) != want {
            return Some(word);
        }
    }
    None
}

/// A word, the value that replaces its immediate, and the word then. The last two rows are the pair of a
/// call from 0x10000 to 0x12804, a distance of 0x2804.
static REPLACED: [(Format, u32, u32, u32); 10] = [
    (Format::I, 0x0000_80e7, 0xffff_f804, 0x8040_80e7), // jalr x1,-2044(x1)
    (Format::S, 0x019d_1023, 1365, 0x559d_1aa3), // sh x25,1365(x26)
    (Format::S, 0x559d_1aa3, 0, 0x019d_1023), // sh x25,0(x26)
    (Format::B, 0x0041_9063, 4094, 0x7e41_9fe3), // bne x3,x4,.+4094
    (Format::B, 0x00c5_f063, 0xffff_f7e0, 0xfec5_f063), // bgeu x11,x12,.-2080
    (Format::U, 0x0000_0fb7, 0x1234_5000, 0x1234_5fb7), // lui x31,0x12345
    (Format::J, 0x0000_07ef, 0xf_fffe, 0x7fff_f7ef), // jal x15,.+0xffffe
    (Format::J, 0x0000_00ef, 0x7fe, 0x7fe0_00ef), // jal x1,.+0x7fe
    (Format::U, 0x0000_0097, 0x2804 + 0x800, 0x0000_3097), // auipc x1,0x3
    (Format::I, 0x0000_80e7, 0x2804, 0x8040_80e7), // jalr x1,-2044(x1)
];

fn other_replaced() -> Option<u32> {
    for &(format, word, value, want) in &REPLACED {
        if replaced(format, word, value) != want {
            return Some(word);
        }
    }
    None
}

#[test]
fn immediates(rt: HostRuntime) {
    assert!(rt; other_immediate().is_none() && other_replaced().is_none());
}
