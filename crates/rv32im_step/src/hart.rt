//! One step of a hart.

ghost use Rattle.std.specs.Prelude.{◌≡◌};
ghost use Rattle.rv32im_table.specs.Instr.{FieldsFit};
ghost use Rattle.rv32im_step.specs.Asked.{asked, effect_asked};
ghost use Rattle.rv32im_step.specs.Meaning.{Means, meaning, effect};
ghost use Rattle.rv32im_step.specs.Parts.{registers};

use crate::bus::Bus;
use crate::integer::{is_below, sll, slt, sltu, sra, srl, sub};
use crate::memory::{load, load_byte, load_half, store};
use crate::multiply::{div, divu, mul, mulh, mulhsu, mulhu, rem, remu};
use crate::regs::{RegisterFile, Regs, follow};
use crate::stop::Stop;
use crate::transfer::{branch, jump, jump_by_register};
use rv32im_table::Instr;

/// The signal of an illegal instruction.
const ILLEGAL: u32 = 4;

/// The signal of EBREAK.
const BREAKPOINT: u32 = 5;

/// The signal of EBREAK. It stands apart, so that its arm is more than a value, which would be made ready before each jump to an arm.
#[inline(never)]
fn breakpoint() -> u32
    ensures { result ≡ 5 }
{
    BREAKPOINT
}

/// Carries out one instruction. The one match over all of them is one jump.
#[inline]
#[tactic(auto, unfolding(crate::specs::Meaning::effect, crate::specs::Asked::effect_asked))]
fn execute<B: Bus>(instr: Instr, pc: &mut u32, x: &mut RegisterFile, bus: &mut B) -> Stop
    requires { FieldsFit instr }
    ensures means { Means (effect instr (registers pc.old x.old) (B.byte bus.old) (B.writable bus.old)) (registers pc.old x.old)
        (registers pc.new x.new) (B.byte bus.old) (B.byte bus.new) result }
    ensures writable { B.writable bus.new ≡ B.writable bus.old }
    ensures did { B.did bus.old (effect_asked instr (registers pc.old x.old) (B.byte bus.old) (B.writable bus.old)) bus.new }
{
    match instr {
        Instr::Lui { rd, imm } => x.set(rd, imm, pc),
        Instr::Auipc { rd, imm } => x.set(rd, pc.wrapping_add(imm), pc),
        Instr::Jal { rd, imm } => jump(rd, pc.wrapping_add(imm), pc, x),
        Instr::Jalr { rd, rs1, imm } => jump_by_register(pc, x, rd, rs1, imm),
        Instr::Beq { rs1, rs2, imm } => branch(pc, x.read(rs1) == x.read(rs2), imm),
        Instr::Bne { rs1, rs2, imm } => branch(pc, x.read(rs1) != x.read(rs2), imm),
        Instr::Blt { rs1, rs2, imm } => branch(pc, is_below(x.read(rs1), x.read(rs2)), imm),
        Instr::Bge { rs1, rs2, imm } => branch(pc, !is_below(x.read(rs1), x.read(rs2)), imm),
        Instr::Bltu { rs1, rs2, imm } => branch(pc, x.read(rs1) < x.read(rs2), imm),
        Instr::Bgeu { rs1, rs2, imm } => branch(pc, x.read(rs1) >= x.read(rs2), imm),
        Instr::Lb { rd, rs1, imm } => load_byte(rd, x.read(rs1).wrapping_add(imm), pc, x, bus),
        Instr::Lh { rd, rs1, imm } => load_half(rd, x.read(rs1).wrapping_add(imm), pc, x, bus),
        Instr::Lw { rd, rs1, imm } => load(rd, x.read(rs1).wrapping_add(imm), 4, pc, x, bus),
        Instr::Lbu { rd, rs1, imm } => load(rd, x.read(rs1).wrapping_add(imm), 1, pc, x, bus),
        Instr::Lhu { rd, rs1, imm } => load(rd, x.read(rs1).wrapping_add(imm), 2, pc, x, bus),
        Instr::Sb { rs1, rs2, imm } => store(rs2, x.read(rs1).wrapping_add(imm), 1, pc, x, bus),
        Instr::Sh { rs1, rs2, imm } => store(rs2, x.read(rs1).wrapping_add(imm), 2, pc, x, bus),
        Instr::Sw { rs1, rs2, imm } => store(rs2, x.read(rs1).wrapping_add(imm), 4, pc, x, bus),
        Instr::Addi { rd, rs1, imm } => x.set(rd, x.read(rs1).wrapping_add(imm), pc),
        Instr::Slti { rd, rs1, imm } => x.set(rd, slt(x.read(rs1), imm), pc),
        Instr::Sltiu { rd, rs1, imm } => x.set(rd, sltu(x.read(rs1), imm), pc),
        Instr::Xori { rd, rs1, imm } => x.set(rd, x.read(rs1) ^ imm, pc),
        Instr::Ori { rd, rs1, imm } => x.set(rd, x.read(rs1) | imm, pc),
        Instr::Andi { rd, rs1, imm } => x.set(rd, x.read(rs1) & imm, pc),
        Instr::Slli { rd, rs1, imm } => x.set(rd, sll(x.read(rs1), imm), pc),
        Instr::Srli { rd, rs1, imm } => x.set(rd, srl(x.read(rs1), imm), pc),
        Instr::Srai { rd, rs1, imm } => x.set(rd, sra(x.read(rs1), imm), pc),
        Instr::Add { rd, rs1, rs2 } => x.set(rd, x.read(rs1).wrapping_add(x.read(rs2)), pc),
        Instr::Sub { rd, rs1, rs2 } => x.set(rd, sub(x.read(rs1), x.read(rs2)), pc),
        Instr::Sll { rd, rs1, rs2 } => x.set(rd, sll(x.read(rs1), x.read(rs2)), pc),
        Instr::Slt { rd, rs1, rs2 } => x.set(rd, slt(x.read(rs1), x.read(rs2)), pc),
        Instr::Sltu { rd, rs1, rs2 } => x.set(rd, sltu(x.read(rs1), x.read(rs2)), pc),
        Instr::Xor { rd, rs1, rs2 } => x.set(rd, x.read(rs1) ^ x.read(rs2), pc),
        Instr::Srl { rd, rs1, rs2 } => x.set(rd, srl(x.read(rs1), x.read(rs2)), pc),
        Instr::Sra { rd, rs1, rs2 } => x.set(rd, sra(x.read(rs1), x.read(rs2)), pc),
        Instr::Or { rd, rs1, rs2 } => x.set(rd, x.read(rs1) | x.read(rs2), pc),
        Instr::And { rd, rs1, rs2 } => x.set(rd, x.read(rs1) & x.read(rs2), pc),
        Instr::Mul { rd, rs1, rs2 } => x.set(rd, mul(x.read(rs1), x.read(rs2)), pc),
        Instr::Mulh { rd, rs1, rs2 } => x.set(rd, mulh(x.read(rs1), x.read(rs2)), pc),
        Instr::Mulhsu { rd, rs1, rs2 } => x.set(rd, mulhsu(x.read(rs1), x.read(rs2)), pc),
        Instr::Mulhu { rd, rs1, rs2 } => x.set(rd, mulhu(x.read(rs1), x.read(rs2)), pc),
        Instr::Div { rd, rs1, rs2 } => x.set(rd, div(x.read(rs1), x.read(rs2)), pc),
        Instr::Divu { rd, rs1, rs2 } => x.set(rd, divu(x.read(rs1), x.read(rs2)), pc),
        Instr::Rem { rd, rs1, rs2 } => x.set(rd, rem(x.read(rs1), x.read(rs2)), pc),
        Instr::Remu { rd, rs1, rs2 } => x.set(rd, remu(x.read(rs1), x.read(rs2)), pc),
        Instr::Fence | Instr::FenceI => follow(pc),
        Instr::Ecall => Stop::Call,
        Instr::Ebreak => Stop::Trap(breakpoint()),
    }
}

/// Carries out the instruction at pc, which the bus fetches and decodes, as RV32IM with Zifencei says.
/// FENCE and FENCE.I do nothing, since each access is done when its step ends. RISC-V unprivileged ISA,
/// "RV32I Base Integer Instruction Set" and '"M" Extension for Integer Multiplication and Division'.
#[tactic(auto, unfolding(crate::specs::Meaning::meaning, crate::specs::Asked::asked))]
pub fn step_at<B: Bus>(pc: &mut u32, x: &mut RegisterFile, bus: &mut B) -> Stop
    ensures means { Means (meaning (registers pc.old x.old) (B.byte bus.old) (B.writable bus.old)) (registers pc.old x.old)
        (registers pc.new x.new) (B.byte bus.old) (B.byte bus.new) result }
    ensures writable { B.writable bus.new ≡ B.writable bus.old }
    ensures did { B.did bus.old (asked (registers pc.old x.old) (B.byte bus.old) (B.writable bus.old)) bus.new }
{
    match bus.instr(*pc) {
        Ok(Some(instr)) => execute(instr, pc, x, bus),
        Ok(None) => Stop::Trap(ILLEGAL),
        Err(access) => Stop::Refused(access),
    }
}

/// `step_at` of registers as they are kept.
pub fn step<B: Bus>(regs: &mut Regs, bus: &mut B) -> Stop
    ensures means { Means (meaning regs.old (B.byte bus.old) (B.writable bus.old)) regs.old regs.new (B.byte bus.old)
        (B.byte bus.new) result }
    ensures writable { B.writable bus.new ≡ B.writable bus.old }
    ensures did { B.did bus.old (asked regs.old (B.byte bus.old) (B.writable bus.old)) bus.new }
{
    let mut pc = regs.pc;
    let mut x = RegisterFile::of(&regs.x);
    let stop = step_at(&mut pc, &mut x, bus);
    *regs = Regs { pc, x: x.array() };
    stop
}
