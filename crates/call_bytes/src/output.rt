//! The bytes that a call gives.

ghost use Rattle.std.specs.Prelude.{◌≡◌, ℕ, ◌*◌, ◌^◌, ◌-◌, All, None, Some, true, List, length, map, min, option_map, Ok};
ghost use Rattle.call_log.specs.Values.{got_value};
ghost use Rattle.mmap_rules.specs.declared.page_owner.PageOwner.{PageOwner};
ghost use Rattle.mmap_rules.specs.Owners.{owns};
ghost use Rattle.region_watch.specs.Private.{in_pages, physical};
ghost use Rattle.flat_loader.specs.Alone.{put_got};
ghost use Rattle.call_bytes.specs.Puts.{stray_range, access_at, IsRange, got_len, Put};

use call_log::Got;
use mmap_rules::Owners;
use phys_mem::PhysMem;
use rv32im_step::{Access, AccessKind};

/// How many bytes are got, or the most that a `u64` says where they are more.
pub fn got_len(got: &[Got]) -> u64
    ensures { result ≡ min (got_len (map got_value got.now)) (2 ^ 64 - 1) }
{
    let mut len = 0u64;
    for range in got {
        len = len.saturating_add(range.bytes.len() as u64);
    }
    len
}

/// The first range that may not be written, as an access of the call at `pc`.
pub fn stray_got(owners: &Owners, pc: u32, got: &[Got]) -> Option<Access>
    requires { All IsRange (map got_value got.now) }
    ensures { result ≡ option_map (access_at pc) (stray_range (owns owners.now true) (map got_value got.now)) }
{
    for range in got {
        let len = range.bytes.len() as u32;
        if !owners.own(range.addr, len, true) {
            return Some(Access {
                pc,
                addr: range.addr,
                len,
                kind: AccessKind::Call,
            });
        }
    }
    None
}

/// Writes all ranges, in order. They lie in memory.
pub fn put(mem: &mut PhysMem, got: &[Got])
    requires ranges { All IsRange (map got_value got.now) }
    requires inside { (pages : ℕ) × (length mem.old ≡ 4096 * pages) × (stray_range (in_pages pages) (map got_value got.now) ≡ None) }
    ensures all { (pages : ℕ) → length mem.old ≡ 4096 * pages → put_got (physical mem.old) (in_pages pages) (map got_value got.now) ≡ Ok (physical mem.new) }
    ensures own { (table : List PageOwner) → length mem.old ≡ 4096 * length table → stray_range (owns table true) (map got_value got.now) ≡ None → Put table mem.old mem.new (map got_value got.now) }
    ensures len { length mem.new ≡ length mem.old }
{
    for range in got {
        mem.copy_in(range.addr, &range.bytes);
    }
}
