//! A header: next, info, size and checksum, the name, and where the data stand.

ghost use Rattle.std.specs.Prelude.{◌≡◌, ◌+◌, ◌-◌, ◌<◌, ◌≤◌, ◌==◌, ◌%◌, ◌^◌, length, take, drop, position, Some, None, MatchResult};
ghost use Rattle.std.specs.List.{before_first};
ghost use Rattle.romfs_image.specs.Words.{word_sum, padded};
ghost use Rattle.romfs_image.specs.Header.{name_at, name_end, header_at, header_bytes, file_bytes};
ghost use Rattle.romfs_image.specs.Fault.{sums_to_zero, is_dots, is_bad_name, is_node, header_fault};
ghost use Rattle.romfs_image.specs.Text.{header_len};
ghost use Rattle.romfs_image.specs.Code.{header_value};

use crate::fault::RomFault;
use crate::kind::HeaderKind;
use byte_words::big_word;

/// The most bytes of a name.
const MOST_NAME: usize = 255;

/// The bytes of a header's words.
const WORDS_LEN: usize = 16;

/// What stands at a position of an image.
#[derive(Clone, Copy)]
pub struct Header<'a> {
    pub next: u32,
    pub kind: HeaderKind,
    pub exec: bool,
    pub info: u32,
    pub size: u32,
    pub name: &'a [u8],
    /// The position of a file's bytes.
    pub body: usize,
}

fn first_zero(text: &[u8]) -> Option<usize>
    ensures { result ≡ position (λ b. b == 0) text.now }
{
    text.iter().position(|b| *b == 0)
}

/// The bytes up to the first zero, or all of them.
fn before_zero(text: &[u8]) -> &[u8]
    ensures { result.now ≡ before_first (λ b. b == 0) text.now }
{
    match first_zero(text) {
        Some(end) => text.split_at(end).0,
        None => text,
    }
}

/// The name of the header at a position, or the volume name for position 0.
#[tactic(auto, unfolding(crate::specs::Header::name_at))]
pub fn name_at(image: &[u8], at: usize) -> &[u8]
    requires { at < 2 ^ 32 }
    ensures { result.now ≡ name_at image.now at }
{
    before_zero(image.split_at(image.len().min(at + WORDS_LEN)).1)
}

/// The next multiple of 16.
pub fn padded(len: usize) -> usize
    requires { len ≤ 2 ^ 63 }
    ensures { result ≡ padded len }
{
    (len + 15) / 16 * 16
}

/// The bytes of a header with its padded name.
pub fn header_len(name: &[u8]) -> usize
    ensures { result ≡ header_len name.now }
{
    WORDS_LEN + padded(name.len() + 1)
}

/// The position behind that name with its zero and padding.
#[tactic(auto, unfolding(crate::specs::Header::name_end))]
pub fn name_end(image: &[u8], at: usize) -> usize
    requires at { at < 2 ^ 32 }
    requires long { length image.now < 2 ^ 32 }
    ensures value { result ≡ name_end image.now at }
    ensures past { at + 32 ≤ result }
{
    at + header_len(name_at(image, at))
}

/// The header at a position.
#[tactic(auto, unfolding(crate::specs::Header::header_at))]
pub fn header_at(image: &[u8], at: usize) -> Header<'_>
    requires at { at < 2 ^ 32 }
    requires long { length image.now < 2 ^ 32 }
    requires words { at + 16 ≤ length image.now }
    ensures { header_value result ≡ header_at image.now at }
{
    let next = big_word(image, at);
    Header {
        next: next / 16 * 16,
        kind: HeaderKind::of(next),
        exec: next / 8 % 2 == 1,
        info: big_word(image, at + 4) / 16 * 16,
        size: big_word(image, at + 8),
        name: name_at(image, at),
        body: name_end(image, at),
    }
}

/// The sum of the words.
pub fn sum_of(bytes: &[u8]) -> u32
    ensures { result ≡ word_sum bytes.now % 2 ^ 32 }
{
    let mut sum: u32 = 0;
    for index in 0..bytes.len() / 4 {
        sum = sum.wrapping_add(big_word(bytes, 4 * index));
    }
    sum
}

/// Whether the words sum to 0.
#[tactic(auto, unfolding(crate::specs::Fault::sums_to_zero))]
pub fn sums_to_zero(bytes: &[u8]) -> bool
    ensures { result ≡ sums_to_zero bytes.now }
{
    sum_of(bytes) == 0
}

/// The bytes from the start of a header to the end of its name.
#[tactic(auto, unfolding(crate::specs::Header::header_bytes))]
fn header_part(image: &[u8], at: usize) -> &[u8]
    requires at { at < 2 ^ 32 }
    requires long { length image.now < 2 ^ 32 }
    requires fits { name_end image.now at ≤ length image.now }
    ensures { result.now ≡ header_bytes image.now at }
{
    &image[at..name_end(image, at)]
}

/// `.` or `..`.
#[tactic(auto, unfolding(crate::specs::Fault::is_dots))]
pub fn is_dots(name: &[u8]) -> bool
    ensures { result ≡ is_dots name.now }
{
    name == b".".as_slice() || name == b"..".as_slice()
}

#[tactic(auto, unfolding(crate::specs::Fault::is_bad_name))]
fn is_bad_name(header: &Header<'_>) -> bool
    ensures { result ≡ is_bad_name (header_value header.now) }
{
    let name = header.name;
    name.is_empty()
        || name.len() > MOST_NAME
        || name.contains(&b'/')
        || (is_dots(name) && !header.kind.is_link() && !header.kind.is_folder())
}

/// Whether a header is a hard link, a folder or a file that isn't passed over.
#[tactic(auto, unfolding(crate::specs::Fault::is_node))]
pub fn is_node(header: &Header<'_>) -> bool
    ensures { result ≡ is_node (header_value header.now) }
{
    let kind = header.kind;
    (kind.is_link() || kind.is_folder() || kind.is_file()) && !is_dots(header.name)
}

/// The header at a position, behind one at `before`, unless it has one of the faults `Header` to `Range`.
#[tactic(auto, unfolding(crate::specs::Fault::header_fault, crate::specs::Header::header_at))]
pub fn sound_header(image: &[u8], before: u32, at: u32) -> Result<Header<'_>, RomFault>
    requires { length image.now < 2 ^ 32 }
    ensures { MatchResult result
        (λ header. (header_fault image.now before at ≡ None) × (header_value header ≡ header_at image.now at))
        (λ fault. header_fault image.now before at ≡ Some fault) }
{
    let start = at as usize;
    if name_end(image, start) > image.len() {
        return Err(RomFault::Header);
    }
    if !sums_to_zero(header_part(image, start)) {
        return Err(RomFault::HeaderSum);
    }
    let header = header_at(image, start);
    if is_bad_name(&header) {
        return Err(RomFault::Name);
    }
    if at <= before {
        return Err(RomFault::Order);
    }
    if header.kind.is_file() && header.body + header.size as usize > image.len() {
        return Err(RomFault::Range);
    }
    Ok(header)
}

/// The bytes of a file.
#[tactic(auto, unfolding(crate::specs::Header::file_bytes))]
pub fn file_bytes<'a>(image: &'a [u8], header: &Header<'_>) -> &'a [u8]
    ensures { result.now ≡ file_bytes image.now (header_value header.now) }
{
    let (_, behind) = image.split_at(image.len().min(header.body));
    behind.split_at(behind.len().min(header.size as usize)).0
}
