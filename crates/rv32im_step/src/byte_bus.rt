//! A plain bus.

ghost use Rattle.std.specs.Prelude.{◌≡◌, ◌⊎◌, ◌+◌, ◌^◌, ◌<◌, ◌≤◌, length, IfSome};
ghost use Rattle.std.proofs.Common.{refl, ◌∙◌};
ghost use Rattle.byte_words.specs.ByteMap.{byte_of, place_of, little, overwritten};
ghost use Rattle.rv32im_step.specs.ByteBus.{writable_of};
ghost use Rattle.rv32im_step.specs.Meaning.{Means, meaning};
ghost use Rattle.rv32im_step.specs.Memory.{reading};
ghost use Rattle.byte_words.specs.ByteMap.{little_bytes};

use crate::bus::Bus;
use crate::hart::step;
use crate::regs::Regs;
use crate::stop::Stop;
use byte_words::{Access, AccessKind};
use rv32im_table::{Instr, decode};

/// A bus over one array: its bytes stand from address `base` on. Those below 2^32 may all be written; no
/// access reaches the others.
#[derive(Drop)]
pub struct ByteBus<'a> {
    pub base: u32,
    pub bytes: &'a mut [u8],
}

/// The index of `len` bytes from `addr` on, if all of them are in an array of `total` bytes.
#[inline]
#[tactic(auto, unfolding(byte_words::specs::ByteMap::place_of))]
fn place(base: u32, total: usize, addr: u32, len: u32) -> Option<usize>
    requires { len ≤ 4 }
    ensures { result ≡ place_of base total addr len }
{
    if addr < base || u64::from(addr) + u64::from(len) > 1 << 32 {
        return None;
    }
    let at = (addr - base) as usize;
    if total < len as usize || at > total - len as usize {
        return None;
    }
    Some(at)
}

#[inline]
fn read(bytes: &[u8], at: usize, len: u32) -> u32
    requires len { (len ≡ 1) ⊎ (len ≡ 2) ⊎ (len ≡ 4) }
    requires within { at + len ≤ length bytes.now }
    ensures value { result ≡ little bytes.now at len }
    ensures fits { result < 256 ^ len }
{
    match len {
        1 => u32::from(bytes[at]),
        2 => u32::from(u16::from_le_bytes([bytes[at], bytes[at + 1]])),
        _ => u32::from_le_bytes([bytes[at], bytes[at + 1], bytes[at + 2], bytes[at + 3]]),
    }
}

#[inline]
fn write(bytes: &mut [u8], at: usize, len: u32, value: u32)
    requires len { (len ≡ 1) ⊎ (len ≡ 2) ⊎ (len ≡ 4) }
    requires within { at + len ≤ length bytes.old }
    ensures { bytes.new ≡ overwritten bytes.old at (little_bytes len value) }
{
    let [b0, b1, b2, b3] = value.to_le_bytes();
    if len == 4 {
        bytes[at + 3] = b3;
        bytes[at + 2] = b2;
    }
    if len != 1 {
        bytes[at + 1] = b1;
    }
    bytes[at] = b0;
}

impl ByteBus<'_> {
    #[inline]
    #[tactic(auto, using(crate::proofs::ByteBusLaws::places))]
    fn number(&self, addr: u32, len: u32) -> Option<u32>
        requires { (len ≡ 1) ⊎ (len ≡ 2) ⊎ (len ≡ 4) }
        ensures value { result ≡ reading (byte_of self.now.base self.now.bytes.now) addr len }
        ensures fits { IfSome result (λ n. n < 256 ^ len) }
    {
        match place(self.base, self.bytes.len(), addr, len) {
            Some(at) => Some(read(self.bytes, at, len)),
            None => None,
        }
    }
}

impl Bus for ByteBus<'_> {
    ghost byte = { λ s. byte_of s.base s.bytes.now };

    ghost writable = { λ s. writable_of };

    ghost did = { λ s xs t. (t.base ≡ s.base) × (t.bytes.ghost_name ≡ s.bytes.ghost_name) × (length t.bytes.now ≡ length s.bytes.now) };

    ghost did_none = { λ a. (refl, refl, refl) };

    ghost did_more = { λ a b c xs ys p q. (q.0 ∙ p.0, q.1 ∙ p.1, q.2 ∙ p.2) };

    #[inline]
    #[tactic(auto, unfolding(crate::specs::Memory::loaded))]
    fn fetch(&mut self, pc: u32) -> Result<u32, Access> {
        match self.number(pc, 4) {
            Some(n) => Ok(n),
            None => Err(Access {
                pc,
                addr: pc,
                len: 4,
                kind: AccessKind::Fetch,
            }),
        }
    }

    #[inline]
    #[tactic(auto, unfolding(crate::specs::Memory::loaded, crate::specs::Meaning::decoded_at))]
    fn instr(&mut self, pc: u32) -> Result<Option<Instr>, Access> {
        match self.number(pc, 4) {
            Some(n) => Ok(decode(n)),
            None => Err(Access {
                pc,
                addr: pc,
                len: 4,
                kind: AccessKind::Fetch,
            }),
        }
    }

    #[inline]
    #[tactic(auto, unfolding(crate::specs::Memory::loaded))]
    fn load(&mut self, pc: u32, addr: u32, len: u32) -> Result<u32, Access> {
        match self.number(addr, len) {
            Some(n) => Ok(n),
            None => Err(Access {
                pc,
                addr,
                len,
                kind: AccessKind::Load,
            }),
        }
    }

    #[inline]
    #[tactic(auto, using(crate::proofs::ByteBusLaws::places))]
    fn store(&mut self, pc: u32, addr: u32, len: u32, value: u32) -> Result<(), Access> {
        match place(self.base, self.bytes.len(), addr, len) {
            Some(at) => {
                write(self.bytes, at, len, value);
                Ok(())
            }
            None => Err(Access {
                pc,
                addr,
                len,
                kind: AccessKind::Store,
            }),
        }
    }
}

/// One step over memory that is lent for it, whose bytes stand from address `base` on.
pub fn step_in(regs: &mut Regs, base: u32, bytes: &mut [u8]) -> Stop
    ensures means { Means (meaning regs.old (byte_of base bytes.old) writable_of) regs.old regs.new (byte_of base bytes.old)
        (byte_of base bytes.new) result }
    ensures length { length bytes.new ≡ length bytes.old }
{
    let mut bus = ByteBus { base, bytes };
    step(regs, &mut bus)
}
