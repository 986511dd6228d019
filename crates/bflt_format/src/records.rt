//! The relocation records: the places of the words that are relocated.

ghost use Rattle.std.specs.Prelude.{◌≡◌, ℕ, ◌+◌, ◌*◌, ◌<◌, ◌≤◌, [], ◌∷◌, ◌||◌, nat_lt, length, map, slice_index, IfOk};
ghost use Rattle.std.specs.List.{range_with_len};
ghost use Rattle.bflt_format.specs.Numbers.{big_at};
ghost use Rattle.byte_words.specs.Search.{any_below};
ghost use Rattle.byte_words.specs.Patches.{laid};
ghost use Rattle.bflt_format.specs.Header.{reloc_count, record_at};
ghost use Rattle.bflt_format.specs.Fault.{IsHeader, record_fault, passes_data, meets_earlier, targets_past};

use crate::fault::FlatFault;
use crate::header::{RELOC_COUNT, RELOC_START};
use byte_words::big_word;
use byteorder::{BigEndian, ByteOrder};
use std::alloc::{AllocError, Global};

/// The records in the order of the file.
pub fn records_of(alloc: Global, bytes: &[u8]) -> Result<Vec<u32>, AllocError>
    requires { IsHeader bytes.now }
    ensures { IfOk result (λ v. v.items ≡ map (record_at bytes.now) (range_with_len 0 (reloc_count bytes.now))) }
{
    let count = big_word(bytes, RELOC_COUNT) as usize;
    if count == 0 {
        return Ok(Vec::new(alloc));
    }
    let start = big_word(bytes, RELOC_START) as usize;
    let mut records = vec![in alloc; 0; count]?;
    BigEndian::read_u32_into(&bytes[start..start + 4 * count], &mut records);
    Ok(records)
}

/// The first fault of the records of `body` in an image of `size` bytes.
#[tactic(auto, unfolding(crate::specs::Fault::record_fault))]
pub fn record_fault_of(
    alloc: Global,
    size: u32,
    body: &[u8],
    records: &[u32],
) -> Result<Option<FlatFault>, AllocError>
    ensures { IfOk result (λ fault. fault ≡ record_fault (length body.now) size body.now records.now) }
{
    if has_record_past(body.len(), records) {
        return Ok(Some(FlatFault::RecordRange));
    }
    if has_overlap(alloc, body.len(), records)? {
        return Ok(Some(FlatFault::RecordOverlap));
    }
    if has_target_past(size, body, records) {
        return Ok(Some(FlatFault::TargetRange));
    }
    Ok(None)
}

/// Some record's word does not lie in the first `stored` bytes.
#[tactic(auto, using(byte_words::proofs::Searches::any_below_next), unfolding(crate::specs::Fault::passes_data))]
fn has_record_past(stored: usize, records: &[u32]) -> bool
    ensures { result ≡ any_below (passes_data stored records.now) (length records.now) }
{
    for record in records {
        if *record as usize + 4 > stored {
            return true;
        }
    }
    false
}

/// The words at two records have a byte in common. Each byte of the body is marked that some record
/// covers, so the time does not depend on the order of the records.
fn has_overlap(alloc: Global, stored: usize, records: &[u32]) -> Result<bool, AllocError>
    requires { (k : ℕ) → k < length records.now → slice_index records.now k + 4 ≤ stored }
    ensures { IfOk result (λ b. b ≡ any_below (meets_earlier records.now) (length records.now)) }
{
    let mut marks = vec![in alloc; 0u8; stored]?;
    let covered = marks.as_mut_slice();
    for record in records {
        let at = *record as usize;
        if is_covered(covered, at) {
            return Ok(true);
        }
        cover(covered, at);
    }
    Ok(false)
}

/// One of the four bytes from `at` on is marked, where marks come in fours: the first or the last.
fn is_covered(covered: &[u8], at: usize) -> bool
    requires { at + 4 ≤ length covered.now }
    ensures { result ≡ (nat_lt 0 (slice_index covered.now at) || nat_lt 0 (slice_index covered.now (at + 3))) }
{
    covered[at] > 0 || covered[at + 3] > 0
}

/// Marks the four bytes from `at` on.
fn cover(covered: &mut [u8], at: usize)
    requires { at + 4 ≤ length covered.old }
    ensures { covered.new ≡ laid covered.old at (1 ∷ 1 ∷ 1 ∷ 1 ∷ []) }
{
    covered[at..at + 4].copy_from_slice(&[1; 4]);
}

/// The number at some record is past the image's end.
#[tactic(auto, using(byte_words::proofs::Searches::any_below_next), unfolding(crate::specs::Fault::targets_past))]
fn has_target_past(size: u32, body: &[u8], records: &[u32]) -> bool
    requires { (k : ℕ) → k < length records.now → slice_index records.now k + 4 ≤ length body.now }
    ensures { result ≡ any_below (targets_past size body.now records.now) (length records.now) }
{
    for record in records {
        if big_word(body, *record as usize) > size {
            return true;
        }
    }
    false
}
