//! The registers of a hart.

ghost use Rattle.std.specs.Prelude.{◌≡◌, ◌+◌};
ghost use Rattle.rv32im_step.specs.Word.{wrap};

use crate::stop::Stop;
use std::marker::Model;

/// The registers: RISC-V unprivileged ISA, "Programmers' Model for Base Integer ISA". `x[0]` stands
/// for x0, which reads 0 whatever it holds, and which no step writes.
#[derive(Clone, Copy, PartialEq, Eq)]
pub struct Regs {
    pub pc: u32,
    pub x: [u32; 32],
}

/// x0 to x31 while a hart runs: x0 holds 0 here, so that each register is read and written without asking which it is. What `x[0]` of
/// the registers holds is kept beside.
#[derive(Drop)]
pub struct RegisterFile {
    x: [u32; 32],
    zero: u32,
}

impl Model for RegisterFile {
    ghost use Rattle.std.specs.Prelude.{◌≡◌, ℕ, List, slice_index, slice_set};

    ghost Value = { List ℕ };

    ghost view = { λ s. slice_set s.x 0 s.zero };

    ghost invariant = { λ s. slice_index s.x 0 ≡ 0 };
}

#[tactic(auto, using(crate::proofs::FileLaws::files))]
impl RegisterFile {
    ghost use Rattle.std.specs.Prelude.{◌<◌};
    ghost use Rattle.rv32im_step.specs.Parts.{registers};
    ghost use Rattle.rv32im_step.specs.Registers.{register, setting, with_register};

    /// The file of the registers' `x`.
    #[inline]
    pub fn of(x: &[u32; 32]) -> RegisterFile
        ensures { result ≡ x.now }
    {
        let mut file = *x;
        file[0] = 0;
        RegisterFile {
            x: file,
            zero: x[0],
        }
    }

    /// The registers' `x`.
    #[inline]
    pub fn array(&self) -> [u32; 32]
        ensures { result ≡ self.now }
    {
        let mut x = self.x;
        x[0] = self.zero;
        x
    }

    #[inline]
    pub(crate) fn read(&self, r: u8) -> u32
        requires { r < 32 }
        ensures { result ≡ register self.now r }
    {
        self.x[r as usize]
    }

    /// Writes `r`. x0 is 0 again at once.
    #[inline]
    pub(crate) fn write(&mut self, r: u8, v: u32)
        requires { r < 32 }
        ensures { self.new ≡ with_register self.old r v }
    {
        self.x[r as usize] = v;
        self.x[0] = 0;
    }

    /// Writes `rd`, and goes on to the next instruction.
    #[inline]
    pub(crate) fn set(&mut self, rd: u8, v: u32, pc: &mut u32) -> Stop
        requires { rd < 32 }
        ensures regs { registers pc.new self.new ≡ setting (registers pc.old self.old) rd v }
        ensures stop { result ≡ Stop.Next }
    {
        self.write(rd, v);
        follow(pc)
    }
}

/// Goes on to the next instruction.
#[inline]
pub(crate) fn follow(pc: &mut u32) -> Stop
    ensures pc { pc.new ≡ wrap (pc.old + 4) }
    ensures stop { result ≡ Stop.Next }
{
    *pc = pc.wrapping_add(4);
    Stop::Next
}
