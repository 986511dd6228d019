//! Jumps and branches: RISC-V unprivileged ISA, RV32I, "Control Transfer Instructions".

ghost use Rattle.std.specs.Prelude.{◌≡◌, ℕ, List, ◌<◌, ◌+◌, ◌-◌, ◌%◌, ◌^◌};
ghost use Rattle.byte_words.specs.ByteMap.{Bytes};
ghost use Rattle.rv32im_step.specs.Meaning.{Means, jumps, branches, even};
ghost use Rattle.rv32im_step.specs.Parts.{registers};
ghost use Rattle.rv32im_step.specs.Registers.{register};
ghost use Rattle.rv32im_step.specs.Word.{wrap};

use crate::regs::{RegisterFile, follow};
use crate::stop::Stop;

/// The signal of a jump to an address that isn't a multiple of 4.
const MISALIGNED: u32 = 7;

/// Goes to `target` with `rd` set to the address of the next instruction.
#[inline]
pub fn jump(rd: u8, target: u32, pc: &mut u32, x: &mut RegisterFile) -> Stop
    requires { rd < 32 }
    ensures { (m : Bytes) → Means (jumps (registers pc.old x.old) m rd target) (registers pc.old x.old) (registers pc.new x.new) m m result }
{
    if target % 4 != 0 {
        return Stop::Trap(MISALIGNED);
    }
    x.write(rd, pc.wrapping_add(4));
    *pc = target;
    Stop::Next
}

/// JALR. `rs1` is read before `rd` is written.
#[inline]
pub fn jump_by_register(pc: &mut u32, x: &mut RegisterFile, rd: u8, rs1: u8, offset: u32) -> Stop
    requires rd { rd < 32 }
    requires rs1 { rs1 < 32 }
    ensures { (m : Bytes) → Means (jumps (registers pc.old x.old) m rd (even (wrap (register x.old rs1 + offset)))) (registers pc.old x.old)
        (registers pc.new x.new) m m result }
{
    let target = x.read(rs1).wrapping_add(offset);
    jump(rd, target - target % 2, pc, x)
}

/// Goes to `offset` from this instruction's own address, if the branch is taken.
#[inline]
pub fn branch(pc: &mut u32, taken: bool, offset: u32) -> Stop
    ensures { (x : List ℕ) (m : Bytes) → Means (branches (registers pc.old x) m taken offset) (registers pc.old x) (registers pc.new x) m m result }
{
    if !taken {
        return follow(pc);
    }
    let target = pc.wrapping_add(offset);
    if target % 4 != 0 {
        return Stop::Trap(MISALIGNED);
    }
    *pc = target;
    Stop::Next
}
