//! The numbers of the image's bytes. Addresses and ends are whole numbers, since an end may be 2^32 and the
//! image may begin below address 0.

ghost use Rattle.std.specs.Prelude.{◌≡◌, ◌+◌, ◌-◌, ◌≤◌, ◌^◌, min, max};
ghost use Rattle.flat_layout.specs.Numbering.{is_laid_out, has_bytes, is_written, is_executable, end_of, lowest, highest, raised_start};
ghost use Rattle.flat_layout.specs.Layout.{stored_end, written_from};

use elf32_reader::{Elf, Section};

/// One more than the highest address.
pub const ADDRESS_END: u64 = 1 << 32;

const SHF_WRITE: u32 = 1;

const SHF_EXECINSTR: u32 = 4;

/// V0 is a multiple of it.
const ALIGNMENT: u64 = 64;

/// Whether a section has a place in the image: it takes memory and isn't empty.
pub fn is_laid_out(section: &Section) -> bool
    ensures { result ≡ is_laid_out section.now }
{
    section.is_allocated() && section.size > 0
}

/// Whether a section has a place in the image, and its bytes stand in the file.
pub fn has_bytes(section: &Section) -> bool
    ensures { result ≡ has_bytes section.now }
{
    is_laid_out(section) && section.is_stored()
}

/// Whether a section has a place in the image, and the flag SHF_WRITE.
fn is_written(section: &Section) -> bool
    ensures { result ≡ is_written section.now }
{
    is_laid_out(section) && section.flags & SHF_WRITE != 0
}

/// Whether a section has the flag SHF_EXECINSTR.
pub fn is_executable(section: &Section) -> bool
    ensures { result ≡ is_executable section.now }
{
    section.flags & SHF_EXECINSTR != 0
}

/// The address behind the last byte of a section.
pub fn end_of(section: &Section) -> u64
    ensures { result ≡ end_of section.now }
{
    u64::from(section.addr) + u64::from(section.size)
}

fn lower(a: u64, b: u64) -> u64
    ensures { result ≡ min a b }
{
    a.min(b)
}

fn higher(a: u64, b: u64) -> u64
    ensures { result ≡ max a b }
{
    a.max(b)
}

/// The lowest address of a section in the image, or 2^32.
fn lowest(elf: &Elf<'_>) -> u64
    ensures value { result ≡ lowest elf.now }
    ensures bound { result ≤ 2 ^ 32 }
{
    let mut least = ADDRESS_END;
    for index in 0..elf.sections() {
        let section = elf.section(index);
        if is_laid_out(&section) {
            least = lower(least, u64::from(section.addr));
        }
    }
    least
}

/// The highest end of a section in the image, or 0.
pub fn highest(elf: &Elf<'_>) -> u64
    ensures value { result ≡ highest elf.now }
    ensures bound { result ≤ 2 ^ 33 }
{
    let mut greatest = 0;
    for index in 0..elf.sections() {
        let section = elf.section(index);
        if is_laid_out(&section) {
            greatest = higher(greatest, end_of(&section));
        }
    }
    greatest
}

/// V0 + 64: the least multiple of 64 that isn't below all sections of the image.
#[tactic(auto, unfolding(crate::specs::Numbering::raised_start))]
pub fn raised_start(elf: &Elf<'_>) -> u64
    ensures value { result ≡ raised_start elf.now }
    ensures bound { result ≤ 2 ^ 32 }
{
    lowest(elf).div_ceil(ALIGNMENT) * ALIGNMENT
}

/// How far an address lies behind V0, or 0 where it lies before it. `raised` is V0 + 64.
pub fn distance(raised: u64, address: u64) -> u64
    requires { address ≤ 2 ^ 33 }
    ensures { result ≡ address + 64 - raised }
{
    (address + ALIGNMENT).saturating_sub(raised)
}

/// E: the number behind the last byte that stands in the file, or 0 where no byte does.
pub fn stored_end(elf: &Elf<'_>, raised: u64) -> u64
    requires { raised ≡ raised_start elf.now }
    ensures { result ≡ stored_end elf.now }
{
    let mut greatest = 0;
    for index in 0..elf.sections() {
        let section = elf.section(index);
        if has_bytes(&section) {
            greatest = higher(greatest, distance(raised, end_of(&section)));
        }
    }
    greatest
}

/// The lower of E and the lowest number of a writable section. `stored` is E.
pub fn written_from(elf: &Elf<'_>, raised: u64, stored: u64) -> u64
    requires raised { raised ≡ raised_start elf.now }
    requires stored { stored ≡ stored_end elf.now }
    ensures { result ≡ written_from elf.now }
{
    let mut least = stored;
    for index in 0..elf.sections() {
        let section = elf.section(index);
        if is_written(&section) {
            least = lower(least, distance(raised, u64::from(section.addr)));
        }
    }
    least
}
