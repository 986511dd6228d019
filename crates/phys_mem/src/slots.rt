//! Words that were decoded.

ghost use Rattle.std.specs.Prelude.{◌≡◌, ◌⊎◌, ◌+◌, ◌-◌, ◌%◌, ◌<◌, ◌≤◌, ◌^◌, true, IfOk, length, replicate};
ghost use Rattle.byte_words.specs.ByteMap.{little};
ghost use Rattle.rv32im_table.specs.Table.{decoded};
ghost use Rattle.phys_mem.specs.Memory.{Within, place};
ghost use Rattle.phys_mem.specs.Slots.{slot_of, AreSlots, IsDecoded, Keeps, IsBeside, Loses, Forgets};

use crate::memory::place_of;
use crate::words::read;
use rv32im_table::{Instr, decode};
use std::alloc::{AllocError, Global};

/// How many words are kept: those of 64 KiB that stand side by side.
const SLOTS: usize = 16384;

/// The address of an empty slot.
const NOWHERE: u32 = u32::MAX;

/// A word that was decoded. The one at an address is kept in the slot of its index, modulo the number of slots.
#[derive(Clone, Copy)]
pub struct Slot {
    /// Its address, a multiple of 4.
    pub at: u32,
    /// Nothing: by it a slot has 16 bytes, and is found by one shift.
    pub spare: u32,
    /// The instruction that it is.
    pub instr: Instr,
}

/// Empty slots.
pub fn no_words(alloc: Global) -> Result<Vec<Slot>, AllocError>
    ensures { IfOk result (λ slots. slots.items ≡ replicate 16384 (record { at = 2 ^ 32 - 1; spare = 0; instr = Instr.Fence })) }
{
    let empty = Slot {
        at: NOWHERE,
        spare: 0,
        instr: Instr::Fence,
    };
    Ok(vec![in alloc; empty; SLOTS]?)
}

/// The slot of the word at an address.
#[inline]
pub fn slot_of(at: u32) -> usize
    ensures slot { result ≡ slot_of at }
    ensures within { result < 16384 }
{
    (at / 4) as usize % SLOTS
}

/// Decodes the word at an address into its slot, and says whether it is an instruction. One at no multiple of 4 isn't kept: it stands there
/// for this once.
#[inline(never)]
pub fn decoded_word(slots: &mut Vec<Slot>, bytes: &[u8], at: u32) -> bool
    requires count { length slots.old.items ≡ 16384 }
    requires within { Within bytes.now at 4 }
    requires small { length bytes.now < 2 ^ 31 }
    ensures slot { IsDecoded (decoded (little bytes.now (place at) 4)) slots.new.items (slot_of at) result }
    ensures kept { AreSlots bytes.now slots.old.items → AreSlots bytes.now slots.new.items }
    ensures keeps { at % 4 ≡ 0 → result ≡ true → Keeps slots.new.items at }
{
    let Some(instr) = decode(read(bytes, place_of(at) as usize, 4)) else {
        return false;
    };
    let slot = slot_of(at);
    if at % 4 == 0 {
        slots[slot] = Slot {
            at,
            spare: 0,
            instr,
        };
        return true;
    }
    slots[slot] = Slot {
        at: NOWHERE,
        spare: 0,
        instr,
    };
    true
}

/// Forgets the word at an address.
#[inline]
fn forget_word(slots: &mut Vec<Slot>, at: u32)
    requires count { length slots.old.items ≡ 16384 }
    requires small { at < 2 ^ 32 - 1 }
    ensures { Loses at slots.old.items slots.new.items }
{
    let slot = &mut slots[slot_of(at)];
    if slot.at == at {
        slot.at = NOWHERE;
    }
}

/// Forgets the words that a number of one, two or four bytes touches.
#[inline]
pub fn forget_number(slots: &mut Vec<Slot>, at: u32, len: u32)
    requires count { length slots.old.items ≡ 16384 }
    requires some { 0 < len }
    requires few { len ≤ 4 }
    requires range { at + len < 2 ^ 32 }
    ensures { Forgets at (at + len) slots.old.items slots.new.items }
{
    let word = at - at % 4;
    forget_word(slots, word);
    if at % 4 + len > 4 {
        forget_word(slots, word + 4);
    }
}

/// Forgets the word in a slot if it is one of these, by their indices.
fn forget_if_within(slot: &mut Slot, first: u32, words: u32)
    requires { first + words < 2 ^ 32 }
    ensures beside { IsBeside first words slot.new }
    ensures kept { (slot.new ≡ slot.old) ⊎ (slot.new.at ≡ 2 ^ 32 - 1) }
{
    let index = slot.at / 4;
    if first <= index && index - first < words {
        slot.at = NOWHERE;
    }
}

/// Forgets the words that a range touches.
pub fn forget(slots: &mut Vec<Slot>, at: u32, len: u32)
    requires count { length slots.old.items ≡ 16384 }
    requires range { at + len < 2 ^ 32 }
    ensures { Forgets at (at + len) slots.old.items slots.new.items }
{
    if len == 0 {
        return;
    }
    let first = at / 4;
    let words = (at + len - 1) / 4 - first + 1;
    for i in 0..words.min(SLOTS as u32) {
        forget_if_within(&mut slots[(first + i) as usize % SLOTS], first, words);
    }
}
