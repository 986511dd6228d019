//! From a word to its instruction.

ghost use Rattle.std.specs.Prelude.{◌≡◌, IfSome};
ghost use Rattle.rv32im_table.specs.Field.{opcode as opcode_of};
ghost use Rattle.rv32im_table.specs.Instr.{FieldsFit};
ghost use Rattle.rv32im_table.specs.Table.{decoded, found, jump_rows, branch_rows, load_rows, store_rows, op_imm_rows, op_rows, fence_rows, system_rows};

use crate::field::{funct3, funct7, opcode, rd, rs1, rs2, shamt};
use crate::immediate::{imm_b, imm_i, imm_j, imm_s, imm_u};
use crate::instr::Instr;

/// The jump to a register's address.
#[inline]
fn jalr(word: u32) -> Option<Instr>
    requires { opcode_of word ≡ 0x67 }
    ensures row { result ≡ found jump_rows word }
    ensures fields { IfSome result FieldsFit }
{
    match funct3(word) {
        0 => Some(Instr::Jalr {
            rd: rd(word),
            rs1: rs1(word),
            imm: imm_i(word),
        }),
        _ => None,
    }
}

/// The conditional branches.
#[inline]
fn branch(word: u32) -> Option<Instr>
    requires { opcode_of word ≡ 0x63 }
    ensures row { result ≡ found branch_rows word }
    ensures fields { IfSome result FieldsFit }
{
    let (rs1, rs2, imm) = (rs1(word), rs2(word), imm_b(word));
    match funct3(word) {
        0 => Some(Instr::Beq { rs1, rs2, imm }),
        1 => Some(Instr::Bne { rs1, rs2, imm }),
        4 => Some(Instr::Blt { rs1, rs2, imm }),
        5 => Some(Instr::Bge { rs1, rs2, imm }),
        6 => Some(Instr::Bltu { rs1, rs2, imm }),
        7 => Some(Instr::Bgeu { rs1, rs2, imm }),
        _ => None,
    }
}

/// The loads.
#[inline]
fn load(word: u32) -> Option<Instr>
    requires { opcode_of word ≡ 0x03 }
    ensures row { result ≡ found load_rows word }
    ensures fields { IfSome result FieldsFit }
{
    let (rd, rs1, imm) = (rd(word), rs1(word), imm_i(word));
    match funct3(word) {
        0 => Some(Instr::Lb { rd, rs1, imm }),
        1 => Some(Instr::Lh { rd, rs1, imm }),
        2 => Some(Instr::Lw { rd, rs1, imm }),
        4 => Some(Instr::Lbu { rd, rs1, imm }),
        5 => Some(Instr::Lhu { rd, rs1, imm }),
        _ => None,
    }
}

/// The stores.
#[inline]
fn store(word: u32) -> Option<Instr>
    requires { opcode_of word ≡ 0x23 }
    ensures row { result ≡ found store_rows word }
    ensures fields { IfSome result FieldsFit }
{
    let (rs1, rs2, imm) = (rs1(word), rs2(word), imm_s(word));
    match funct3(word) {
        0 => Some(Instr::Sb { rs1, rs2, imm }),
        1 => Some(Instr::Sh { rs1, rs2, imm }),
        2 => Some(Instr::Sw { rs1, rs2, imm }),
        _ => None,
    }
}

/// The operations with an immediate.
#[inline]
fn op_imm(word: u32) -> Option<Instr>
    requires { opcode_of word ≡ 0x13 }
    ensures row { result ≡ found op_imm_rows word }
    ensures fields { IfSome result FieldsFit }
{
    let (rd, rs1, imm) = (rd(word), rs1(word), imm_i(word));
    match (funct3(word), funct7(word)) {
        (0, _) => Some(Instr::Addi { rd, rs1, imm }),
        (2, _) => Some(Instr::Slti { rd, rs1, imm }),
        (3, _) => Some(Instr::Sltiu { rd, rs1, imm }),
        (4, _) => Some(Instr::Xori { rd, rs1, imm }),
        (6, _) => Some(Instr::Ori { rd, rs1, imm }),
        (7, _) => Some(Instr::Andi { rd, rs1, imm }),
        (1, 0x00) => Some(Instr::Slli {
            rd,
            rs1,
            imm: shamt(word),
        }),
        (5, 0x00) => Some(Instr::Srli {
            rd,
            rs1,
            imm: shamt(word),
        }),
        (5, 0x20) => Some(Instr::Srai {
            rd,
            rs1,
            imm: shamt(word),
        }),
        _ => None,
    }
}

/// The operations on two registers.
#[inline]
fn op(word: u32) -> Option<Instr>
    requires { opcode_of word ≡ 0x33 }
    ensures row { result ≡ found op_rows word }
    ensures fields { IfSome result FieldsFit }
{
    let (rd, rs1, rs2) = (rd(word), rs1(word), rs2(word));
    match (funct7(word), funct3(word)) {
        (0x00, 0) => Some(Instr::Add { rd, rs1, rs2 }),
        (0x20, 0) => Some(Instr::Sub { rd, rs1, rs2 }),
        (0x00, 1) => Some(Instr::Sll { rd, rs1, rs2 }),
        (0x00, 2) => Some(Instr::Slt { rd, rs1, rs2 }),
        (0x00, 3) => Some(Instr::Sltu { rd, rs1, rs2 }),
        (0x00, 4) => Some(Instr::Xor { rd, rs1, rs2 }),
        (0x00, 5) => Some(Instr::Srl { rd, rs1, rs2 }),
        (0x20, 5) => Some(Instr::Sra { rd, rs1, rs2 }),
        (0x00, 6) => Some(Instr::Or { rd, rs1, rs2 }),
        (0x00, 7) => Some(Instr::And { rd, rs1, rs2 }),
        (0x01, 0) => Some(Instr::Mul { rd, rs1, rs2 }),
        (0x01, 1) => Some(Instr::Mulh { rd, rs1, rs2 }),
        (0x01, 2) => Some(Instr::Mulhsu { rd, rs1, rs2 }),
        (0x01, 3) => Some(Instr::Mulhu { rd, rs1, rs2 }),
        (0x01, 4) => Some(Instr::Div { rd, rs1, rs2 }),
        (0x01, 5) => Some(Instr::Divu { rd, rs1, rs2 }),
        (0x01, 6) => Some(Instr::Rem { rd, rs1, rs2 }),
        (0x01, 7) => Some(Instr::Remu { rd, rs1, rs2 }),
        _ => None,
    }
}

/// The fences, whose other bits aren't looked at.
#[inline]
fn fence(word: u32) -> Option<Instr>
    requires { opcode_of word ≡ 0x0f }
    ensures row { result ≡ found fence_rows word }
    ensures fields { IfSome result FieldsFit }
{
    match funct3(word) {
        0 => Some(Instr::Fence),
        1 => Some(Instr::FenceI),
        _ => None,
    }
}

/// The environment call and the breakpoint.
#[inline]
fn system(word: u32) -> Option<Instr>
    requires { opcode_of word ≡ 0x73 }
    ensures row { result ≡ found system_rows word }
    ensures fields { IfSome result FieldsFit }
{
    match word {
        0x0000_0073 => Some(Instr::Ecall),
        0x0010_0073 => Some(Instr::Ebreak),
        _ => None,
    }
}

/// The instruction that `word` is. None where the instruction table of RV32I, M and Zifencei has no
/// row for it: RISC-V unprivileged ISA, "RV32/64G Instruction Set Listings".
#[inline]
#[tactic(auto, unfolding(crate::specs::Table::decoded))]
pub fn decode(word: u32) -> Option<Instr>
    ensures row { result ≡ decoded word }
    ensures fields { IfSome result FieldsFit }
{
    match opcode(word) {
        0x37 => Some(Instr::Lui {
            rd: rd(word),
            imm: imm_u(word),
        }),
        0x17 => Some(Instr::Auipc {
            rd: rd(word),
            imm: imm_u(word),
        }),
        0x6f => Some(Instr::Jal {
            rd: rd(word),
            imm: imm_j(word),
        }),
        0x67 => jalr(word),
        0x63 => branch(word),
        0x03 => load(word),
        0x23 => store(word),
        0x13 => op_imm(word),
        0x33 => op(word),
        0x0f => fence(word),
        0x73 => system(word),
        _ => None,
    }
}
