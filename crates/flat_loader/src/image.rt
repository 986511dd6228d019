//! The image: a flat file's body with its recorded words linked, as Linux's fs/binfmt_flat.c does.

ghost use Rattle.std.specs.Prelude.{◌≡◌, ◌+◌, ◌^◌, ◌<◌, ◌≤◌, ℕ, length, slice_index};
ghost use Rattle.byte_words.specs.Patches.{patched, painted};
ghost use Rattle.phys_mem.specs.Memory.{Within, place as place_of};
ghost use Rattle.bflt_format.specs.Numbers.{big_at};
ghost use Rattle.bflt_format.specs.Image.{link};
ghost use Rattle.flat_loader.specs.Placed.{moved, links};

use byte_words::big_word;
use phys_mem::PhysMem;

/// Writes the address that belongs at a recorded place of a body that stands from `base` on. A word 0 stays.
fn link_word(mem: &mut PhysMem, base: u32, body: &[u8], place: u32)
    requires within { Within mem.old base (length body.now) }
    requires memory { length mem.old ≤ 2 ^ 26 }
    requires inside { place + 4 ≤ length body.now }
    requires target { base + big_at body.now place < 2 ^ 32 }
    ensures bytes { slice_index mem.new ≡ patched (moved (place_of base) (link body.now base place)) (slice_index mem.old) }
    ensures length { length mem.new ≡ length mem.old }
{
    let number = big_word(body, place as usize);
    if number != 0 {
        mem.set32(base + place, base + number);
    }
}

/// Links each recorded word of a body that stands from `base` on.
pub fn link_words(mem: &mut PhysMem, base: u32, body: &[u8], records: &[u32])
    requires within { Within mem.old base (length body.now) }
    requires memory { length mem.old ≤ 2 ^ 26 }
    requires records { (k : ℕ) → k < length records.now → slice_index records.now k + 4 ≤ length body.now }
    requires targets { (k : ℕ) → k < length records.now → base + big_at body.now (slice_index records.now k) < 2 ^ 32 }
    ensures bytes { slice_index mem.new ≡ painted (links body.now base records.now) (slice_index mem.old) }
    ensures length { length mem.new ≡ length mem.old }
{
    for record in records {
        link_word(mem, base, body, *record);
    }
}
