//! The test whether recorded words meet the bytes of other relocations.

ghost use Rattle.std.specs.Prelude.{◌≡◌, ◌+◌, ◌<◌, ◌^◌, slice_index};
ghost use Rattle.std.specs.List.{list_any, range_with_len};
ghost use Rattle.elf2flt_tool.specs.Word.{lower};
ghost use Rattle.elf2flt_tool.specs.Cover.{own_cover, is_shared, begins_near, is_met, is_plain_met};

use crate::cover::Cover;

/// A recorded word, by numbers of the image.
#[derive(Clone, Copy)]
pub struct Recorded {
    /// The number of its first byte.
    pub place: u32,
    /// Where the word is a GOT slot, the number of the instruction that reads it.
    pub instruction: Option<u32>,
}

/// The lower of a number and the least one so far.
pub fn lower(number: u32, least: Option<u32>) -> u32
    ensures { result ≡ lower number least }
{
    match least {
        None => number,
        Some(other) => number.min(other),
    }
}

/// What was counted at a number; none past the end.
pub fn count_at(counts: &[u8], number: usize) -> u8
    ensures { result ≡ slice_index counts.now number }
{
    if number < counts.len() {
        counts[number]
    } else {
        0
    }
}

/// How often a word's own instruction covers a byte.
fn own_cover(instruction: Option<u32>, byte: usize) -> u8
    ensures { result ≡ own_cover instruction byte }
{
    match instruction {
        Some(from) if from as usize <= byte && byte < from as usize + 4 => 1,
        _ => 0,
    }
}

/// Whether a byte belongs to another relocation whose bytes stay as they are.
fn is_shared(still: &[u8], word: &Recorded, byte: usize) -> bool
    ensures { result ≡ is_shared still.now word.now byte }
{
    own_cover(word.instruction, byte) < count_at(still, byte)
}

/// Whether another relocation whose bytes stay as they are has a byte of the word.
fn meets_still(still: &[u8], word: &Recorded) -> bool
    ensures { result ≡ list_any (λ b. is_shared still.now word.now (word.now.place + b)) (range_with_len 0 4) }
{
    (0..4).any(|offset| is_shared(still, word, word.place as usize + offset))
}

/// Whether a recorded word begins so many bytes behind a number, or before it.
fn begins_near(words: &[u8], number: usize, distance: usize) -> bool
    requires { number + distance < 2 ^ 64 }
    ensures { result ≡ begins_near words.now number distance }
{
    count_at(words, number + distance) > 0
        || distance <= number && count_at(words, number - distance) > 0
}

/// Whether another recorded word has a byte of the word at a number.
fn meets_word(words: &[u8], number: u32) -> bool
    ensures { result ≡ list_any (begins_near words.now number) (range_with_len 1 3) }
{
    (1..4).any(|distance| begins_near(words, number as usize, distance))
}

/// Whether a recorded word has a byte in common with the bytes of another entry.
#[tactic(auto, unfolding(crate::specs::Cover::is_met))]
#[inline(always)]
pub fn is_met(cover: &Cover, word: &Recorded) -> bool
    ensures { result ≡ is_met cover.now word.now }
{
    meets_still(&cover.still, word) || meets_word(&cover.words, word.place)
}

/// Whether a word at a place has a byte in common with the bytes of another entry, if it is no slot.
#[tactic(auto, unfolding(crate::specs::Cover::is_plain_met))]
fn is_plain_met(cover: &Cover, place: u32) -> bool
    ensures { result ≡ is_plain_met cover.now place }
{
    is_met(
        cover,
        &Recorded {
            place,
            instruction: None,
        },
    )
}

/// Whether one of the words at the places does.
pub fn some_plain_met(cover: &Cover, places: &[u32]) -> bool
    ensures { result ≡ list_any (is_plain_met cover.now) places.now }
{
    places.iter().any(|place| is_plain_met(cover, *place))
}
