//! Physical memory.

ghost use Rattle.std.specs.Prelude.{◌≡◌, ◌⊎◌, ◌↔◌, ◌+◌, ◌*◌, ◌^◌, ◌<◌, ◌≤◌, List, ◌∷◌, [], ℕ, IsTrue, IfOk, IfSome, length, replicate, slice_index, slice_range};
ghost use Rattle.byte_words.specs.ByteMap.{little, little_bytes};
ghost use Rattle.byte_words.specs.Patches.{laid};
ghost use Rattle.rv32im_table.specs.Instr.{FieldsFit};
ghost use Rattle.rv32im_table.specs.Table.{decoded};
ghost use Rattle.phys_mem.specs.Memory.{IsMemory, Within, place};

use crate::slots::{Slot, decoded_word, forget, forget_number, no_words, slot_of};
use crate::words::{copy_over, read, write, zero, zeros};
use rv32im_table::Instr;
use std::alloc::{AllocError, Global};
use std::marker::Model;

/// The address of the first byte.
pub const BASE: u32 = 0x8000_0000;

/// The bytes of a page.
pub const PAGE: u32 = 4096;

/// The bytes from address 0x80000000 on, a whole number of pages. All addresses here are physical ones.
#[derive(Drop)]
pub struct PhysMem {
    bytes: Vec<u8>,
    /// Words that were decoded and not written since.
    slots: Vec<Slot>,
}

impl Model for PhysMem {
    ghost use Rattle.std.specs.Prelude.{List, ℕ};
    ghost use Rattle.phys_mem.specs.Memory.{IsMemory};
    ghost use Rattle.phys_mem.specs.Slots.{AreSlots};

    ghost Value = { List ℕ };

    ghost view = { λ m. m.bytes.items };

    ghost invariant = { λ m. IsMemory m.bytes.items × AreSlots m.bytes.items m.slots.items };
}

/// The place of an address in the array. The remainder is one instruction of the host where a difference takes three.
#[inline]
pub(crate) fn place_of(at: u32) -> u32
    requires { 2 ^ 31 ≤ at }
    ensures { result ≡ place at }
{
    at % BASE
}

impl PhysMem {
    /// Memory of so many pages, all zero.
    pub fn new(alloc: Global, pages: u32) -> Result<PhysMem, AllocError>
        requires some { 1 ≤ pages }
        requires most { pages ≤ 16384 }
        ensures { IfOk result (λ m. m ≡ replicate (4096 * pages) 0) }
    {
        Ok(PhysMem {
            bytes: zeros(alloc, (PAGE * pages) as usize)?,
            slots: no_words(alloc)?,
        })
    }

    /// The number of pages.
    #[inline]
    pub fn pages(&self) -> u32
        ensures whole { length self.now ≡ 4096 * result }
        ensures some { 1 ≤ result }
        ensures most { result ≤ 16384 }
    {
        (self.bytes.len() / PAGE as usize) as u32
    }

    /// Whether the `len` bytes from an address on lie in memory.
    #[inline]
    pub fn holds(&self, at: u32, len: u32) -> bool
        ensures { IsTrue result ↔ Within self.now at len }
    {
        at >= BASE && u64::from(at - BASE) + u64::from(len) <= self.bytes.len() as u64
    }

    /// All bytes, the lowest address first.
    #[inline]
    pub fn as_slice(&self) -> &[u8]
        ensures { result.now ≡ self.now }
    {
        &self.bytes
    }

    /// The little-endian number in one, two or four bytes, at any alignment.
    #[inline]
    pub fn get(&self, at: u32, len: u32) -> u32
        requires len { (len ≡ 1) ⊎ (len ≡ 2) ⊎ (len ≡ 4) }
        requires within { Within self.now at len }
        ensures value { result ≡ little self.now (place at) len }
        ensures fits { result < 256 ^ len }
    {
        read(&self.bytes, place_of(at) as usize, len)
    }

    /// Writes the lowest one, two or four bytes of a number, little-endian, at any alignment.
    #[inline]
    pub fn set(&mut self, at: u32, len: u32, value: u32)
        requires len { (len ≡ 1) ⊎ (len ≡ 2) ⊎ (len ≡ 4) }
        requires within { Within self.old at len }
        ensures { self.new ≡ laid self.old (place at) (little_bytes len value) }
    {
        let place = place_of(at);
        forget_number(&mut self.slots, at, len);
        write(&mut self.bytes, place as usize, len, value);
    }

    /// The instruction that the word at an address is, at any alignment. None where it is none.
    #[inline]
    pub fn instr(&mut self, at: u32) -> Option<Instr>
        requires { Within self.old at 4 }
        ensures instr { result ≡ decoded (little self.old (place at) 4) }
        ensures fields { IfSome result FieldsFit }
        ensures same { self.new ≡ self.old }
    {
        let slot = slot_of(at);
        if self.slots[slot].at != at {
            if !decoded_word(&mut self.slots, &self.bytes, at) {
                return None;
            }
        }
        Some(self.slots[slot].instr)
    }

    /// A byte.
    #[inline]
    pub fn get8(&self, at: u32) -> u8
        requires { Within self.now at 1 }
        ensures { result ≡ slice_index self.now (place at) }
    {
        self.bytes[place_of(at) as usize]
    }

    /// Writes a byte.
    #[inline]
    pub fn set8(&mut self, at: u32, value: u8)
        requires { Within self.old at 1 }
        ensures { self.new ≡ laid self.old (place at) (value ∷ []) }
    {
        self.set(at, 1, u32::from(value));
    }

    /// A little-endian word, at any alignment.
    #[inline]
    pub fn get32(&self, at: u32) -> u32
        requires { Within self.now at 4 }
        ensures { result ≡ little self.now (place at) 4 }
    {
        self.get(at, 4)
    }

    /// Writes a little-endian word, at any alignment.
    #[inline]
    pub fn set32(&mut self, at: u32, value: u32)
        requires { Within self.old at 4 }
        ensures { self.new ≡ laid self.old (place at) (little_bytes 4 value) }
    {
        self.set(at, 4, value);
    }

    /// Copies bytes in.
    pub fn copy_in(&mut self, at: u32, bytes: &[u8])
        requires { Within self.old at (length bytes.now) }
        ensures { self.new ≡ laid self.old (place at) bytes.now }
    {
        let place = place_of(at);
        forget(&mut self.slots, at, bytes.len() as u32);
        copy_over(&mut self.bytes, place as usize, bytes);
    }

    /// Copies bytes out.
    pub fn copy_out(&self, at: u32, into: &mut [u8])
        requires { Within self.now at (length into.old) }
        ensures { into.new ≡ slice_range self.now (place at) (place at + length into.old) }
    {
        let from = place_of(at) as usize;
        into.copy_from_slice(&self.bytes[from..from + into.len()]);
    }

    /// Makes `len` bytes zero.
    pub fn clear(&mut self, at: u32, len: u32)
        requires { Within self.old at len }
        ensures { self.new ≡ laid self.old (place at) (replicate len 0) }
    {
        let place = place_of(at);
        forget(&mut self.slots, at, len);
        zero(&mut self.bytes, place as usize, len as usize);
    }
}
