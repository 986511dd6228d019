//! The header (`struct flat_hdr` of uClinux's flat.h): sixteen big-endian words, of which ten are
//! looked at.

ghost use Rattle.std.specs.Prelude.{◌≡◌, ◌≤◌, length};
ghost use Rattle.bflt_format.specs.Fault.{header_fault, is_out_of_bounds, is_entry, is_table_bad};

use crate::fault::FlatFault;
use byte_words::big_word;

/// The bytes of the header, behind which the text begins.
pub const LEN: u32 = 64;

pub const MAGIC: u32 = 0x6246_4c54;

pub const REVISION: u32 = 4;

pub const RAM: u32 = 1;

pub const RAM_AND_KTRACE: u32 = 17;

/// The most bytes of an image, and of a stack.
pub const MOST_IMAGE: u32 = 0x100_0000;

pub const MOST_STACK: u32 = 0x10_0000;

/// Where the words stand in the header.
pub const ENTRY: usize = 8;

pub const DATA_START: usize = 12;

pub const DATA_END: usize = 16;

pub const BSS_END: usize = 20;

pub const STACK_SIZE: usize = 24;

pub const RELOC_START: usize = 28;

pub const RELOC_COUNT: usize = 32;

pub const FLAGS: usize = 36;

/// The first fault of the header.
#[tactic(auto, unfolding(crate::specs::Fault::header_fault))]
pub fn header_fault_of(bytes: &[u8]) -> Option<FlatFault>
    ensures { result ≡ header_fault bytes.now }
{
    if bytes.len() < LEN as usize {
        return Some(FlatFault::Short);
    }
    if big_word(bytes, 0) != MAGIC {
        return Some(FlatFault::Magic);
    }
    if big_word(bytes, 4) != REVISION {
        return Some(FlatFault::Revision);
    }
    let flags = big_word(bytes, FLAGS);
    if flags != RAM && flags != RAM_AND_KTRACE {
        return Some(FlatFault::Flags);
    }
    if is_out_of_bounds(bytes) {
        return Some(FlatFault::Bounds);
    }
    if big_word(bytes, DATA_START) % 32 != 0 {
        return Some(FlatFault::DataAlign);
    }
    if !is_entry(bytes) {
        return Some(FlatFault::Entry);
    }
    if big_word(bytes, STACK_SIZE) > MOST_STACK {
        return Some(FlatFault::StackSize);
    }
    if is_table_bad(bytes) {
        return Some(FlatFault::RecordTable);
    }
    None
}

#[tactic(auto, unfolding(crate::specs::Fault::is_out_of_bounds))]
fn is_out_of_bounds(bytes: &[u8]) -> bool
    requires { 64 ≤ length bytes.now }
    ensures { result ≡ is_out_of_bounds bytes.now }
{
    let data_start = big_word(bytes, DATA_START);
    let data_end = big_word(bytes, DATA_END);
    let bss_end = big_word(bytes, BSS_END);
    let in_order = LEN <= data_start && data_start <= data_end && data_end <= bss_end;
    !in_order || bytes.len() < data_end as usize || bss_end - LEN > MOST_IMAGE
}

#[tactic(auto, unfolding(crate::specs::Fault::is_entry))]
fn is_entry(bytes: &[u8]) -> bool
    requires { 64 ≤ length bytes.now }
    ensures { result ≡ is_entry bytes.now }
{
    let entry = big_word(bytes, ENTRY);
    let data_end = big_word(bytes, DATA_END);
    entry % 4 == 0 && LEN <= entry && u64::from(entry) + 4 <= u64::from(data_end)
}

#[tactic(auto, unfolding(crate::specs::Fault::is_table_bad))]
fn is_table_bad(bytes: &[u8]) -> bool
    requires { 64 ≤ length bytes.now }
    ensures { result ≡ is_table_bad bytes.now }
{
    let start = big_word(bytes, RELOC_START);
    let count = big_word(bytes, RELOC_COUNT);
    let end = u64::from(start) + 4 * u64::from(count);
    count > 0 && (start < big_word(bytes, DATA_END) || (bytes.len() as u64) < end)
}
