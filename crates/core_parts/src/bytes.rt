//! The own bytes of a space as segments.

ghost use Rattle.std.specs.Prelude.{◌≡◌, ℕ, ◌*◌, ◌≤◌, IfOk, Some, length, map, reverse, slice_get};
ghost use Rattle.mmap_rules.specs.Space.{memory_base};
ghost use Rattle.region_watch.specs.Private.{own_bytes};
ghost use Rattle.core_file.specs.Code.{segment_values};
ghost use Rattle.core_world.specs.Segments.{intervals, segment_of};
ghost use Rattle.core_parts.specs.declared.interval.Interval as code_interval;
ghost use Rattle.core_parts.specs.Tables.{kind_in, segment_in, IsInside};
ghost use Rattle.core_parts.specs.Code.{interval_value, copy_value};

use crate::interval::Interval;
use crate::walk::own_intervals;
use core_file::Segment;
use mmap_rules::Owners;
use phys_mem::{BASE, PhysMem};
use std::alloc::{AllocError, Global};

/// A copy of the bytes of an interval.
#[derive(Drop)]
pub struct Copied {
    pub addr: u32,
    pub write: bool,
    pub bytes: Vec<u8>,
}

/// A copy of the bytes of an interval of memory.
fn copy_of(alloc: Global, mem: &PhysMem, interval: &Interval) -> Result<Copied, AllocError>
    requires { IsInside mem.now (interval_value interval.now) }
    ensures { IfOk result (λ copy. copy_value copy ≡ segment_in mem.now (interval_value interval.now)) }
{
    let from = (interval.addr - BASE) as usize;
    let bytes = mem.as_slice()[from..from + interval.len as usize].to_vec(alloc)?;
    Ok(Copied {
        addr: interval.addr,
        write: interval.write,
        bytes,
    })
}

/// Copies of the bytes of intervals of memory, in their order.
fn all_copied(
    alloc: Global,
    mem: &PhysMem,
    intervals: &[Interval],
) -> Result<Vec<Copied>, AllocError>
    requires { (k : ℕ) (i : code_interval.Interval) → slice_get intervals.now k ≡ Some i → IsInside mem.now (interval_value i) }
    ensures { IfOk result (λ copies. map copy_value copies.items ≡ map (λ i. segment_in mem.now (interval_value i)) intervals.now) }
{
    let mut copies = Vec::with_capacity(alloc, intervals.len())?;
    for interval in intervals {
        copies.push(copy_of(alloc, mem, interval)?)?;
    }
    Ok(copies)
}

/// The segments of copies, the last one first.
fn turned(alloc: Global, mut copies: Vec<Copied>) -> Result<Vec<Segment>, AllocError>
    ensures { IfOk result (λ segments. segment_values segments.items ≡ reverse (map copy_value copies.items)) }
{
    let mut segments = Vec::with_capacity(alloc, copies.len())?;
    while let Some(copy) = copies.pop() {
        segments.push_reserved(Segment {
            addr: copy.addr,
            write: copy.write,
            bytes: copy.bytes,
        });
    }
    Ok(segments)
}

/// The bytes that a table of a memory names as own, as segments, the lowest first.
pub fn own_segments(
    alloc: Global,
    mem: &PhysMem,
    owners: &Owners,
) -> Result<Vec<Segment>, AllocError>
    requires { length mem.now ≡ 4096 * length owners.now }
    ensures all { IfOk result (λ segments. segment_values segments.items ≡ map (segment_of (own_bytes owners.now mem.now)) (intervals (kind_in owners.now) memory_base (4096 * length owners.now))) }
    ensures few { IfOk result (λ segments. length segments.items ≤ length owners.now) }
{
    let intervals = own_intervals(alloc, owners, mem.pages())?;
    let copies = all_copied(alloc, mem, &intervals)?;
    turned(alloc, copies)
}
