//! Loads and stores: RISC-V unprivileged ISA, RV32I, "Load and Store Instructions".

ghost use Rattle.std.specs.Prelude.{◌≡◌, ◌⊎◌, ◌<◌, ◌^◌};
ghost use Rattle.rv32im_table.specs.Immediate.{sign_extended};
ghost use Rattle.rv32im_step.specs.Asked.{reads, writes};
ghost use Rattle.rv32im_step.specs.Meaning.{Means, loads, stores, same};
ghost use Rattle.rv32im_step.specs.Memory.{load_of, store_of};
ghost use Rattle.rv32im_step.specs.Parts.{registers};
ghost use Rattle.rv32im_step.specs.Registers.{register};

use crate::bus::Bus;
use crate::regs::{RegisterFile, follow};
use crate::stop::Stop;

/// A byte, its sign extended.
#[inline(always)]
fn extended_byte(n: u32) -> u32
    requires { n < 2 ^ 8 }
    ensures { result ≡ sign_extended 8 n }
{
    if n < 0x80 { n } else { n + 0xffff_ff00 }
}

/// A half-word, its sign extended.
#[inline(always)]
fn extended_half(n: u32) -> u32
    requires { n < 2 ^ 16 }
    ensures { result ≡ sign_extended 16 n }
{
    if n < 0x8000 { n } else { n + 0xffff_0000 }
}

/// LB, into `rd`.
#[inline(always)]
pub fn load_byte<B: Bus>(rd: u8, addr: u32, pc: &mut u32, x: &mut RegisterFile, bus: &mut B) -> Stop
    requires { rd < 32 }
    ensures means { Means (loads (registers pc.old x.old) (B.byte bus.old) rd addr 1 (sign_extended 8))
        (registers pc.old x.old) (registers pc.new x.new) (B.byte bus.old) (B.byte bus.new) result }
    ensures writable { B.writable bus.new ≡ B.writable bus.old }
    ensures did { B.did bus.old (reads (B.byte bus.old) (load_of pc.old addr 1)) bus.new }
{
    match bus.load(*pc, addr, 1) {
        Ok(n) => x.set(rd, extended_byte(n), pc),
        Err(access) => Stop::Refused(access),
    }
}

/// LH, into `rd`.
#[inline(always)]
pub fn load_half<B: Bus>(rd: u8, addr: u32, pc: &mut u32, x: &mut RegisterFile, bus: &mut B) -> Stop
    requires { rd < 32 }
    ensures means { Means (loads (registers pc.old x.old) (B.byte bus.old) rd addr 2 (sign_extended 16))
        (registers pc.old x.old) (registers pc.new x.new) (B.byte bus.old) (B.byte bus.new) result }
    ensures writable { B.writable bus.new ≡ B.writable bus.old }
    ensures did { B.did bus.old (reads (B.byte bus.old) (load_of pc.old addr 2)) bus.new }
{
    match bus.load(*pc, addr, 2) {
        Ok(n) => x.set(rd, extended_half(n), pc),
        Err(access) => Stop::Refused(access),
    }
}

/// LW, LBU and LHU, which load `len` bytes into `rd`.
#[inline(always)]
pub fn load<B: Bus>(
    rd: u8,
    addr: u32,
    len: u32,
    pc: &mut u32,
    x: &mut RegisterFile,
    bus: &mut B,
) -> Stop
    requires rd { rd < 32 }
    requires len { (len ≡ 1) ⊎ (len ≡ 2) ⊎ (len ≡ 4) }
    ensures means { Means (loads (registers pc.old x.old) (B.byte bus.old) rd addr len same)
        (registers pc.old x.old) (registers pc.new x.new) (B.byte bus.old) (B.byte bus.new) result }
    ensures writable { B.writable bus.new ≡ B.writable bus.old }
    ensures did { B.did bus.old (reads (B.byte bus.old) (load_of pc.old addr len)) bus.new }
{
    match bus.load(*pc, addr, len) {
        Ok(n) => x.set(rd, n, pc),
        Err(access) => Stop::Refused(access),
    }
}

/// SB, SH and SW, which store the lowest `len` bytes of `rs2`.
#[inline(always)]
pub fn store<B: Bus>(
    rs2: u8,
    addr: u32,
    len: u32,
    pc: &mut u32,
    x: &RegisterFile,
    bus: &mut B,
) -> Stop
    requires rs2 { rs2 < 32 }
    requires len { (len ≡ 1) ⊎ (len ≡ 2) ⊎ (len ≡ 4) }
    ensures means { Means (stores (registers pc.old x.now) (B.byte bus.old) (B.writable bus.old) addr len (register x.now rs2))
        (registers pc.old x.now) (registers pc.new x.now) (B.byte bus.old) (B.byte bus.new) result }
    ensures writable { B.writable bus.new ≡ B.writable bus.old }
    ensures did { B.did bus.old
        (writes (B.byte bus.old) (B.writable bus.old) (store_of pc.old addr len) (register x.now rs2))
        bus.new }
{
    match bus.store(*pc, addr, len, x.read(rs2)) {
        Ok(()) => follow(pc),
        Err(access) => Stop::Refused(access),
    }
}
