//! The places of the recorded words, ascending, and where a word points.

ghost use Rattle.std.specs.Prelude.{◌≡◌, ◌+◌, ◌≤◌, ◌<◌, ◌^◌, length, IfOk};
ghost use Rattle.elf2flt_tool.specs.Cover.{counted};
ghost use Rattle.elf2flt_tool.specs.Word.{word_at};

use crate::word::Word;
use byte_words::word as little_word;
use flat_layout::Layout;
use std::alloc::{AllocError, Global};

/// The numbers at which recorded words begin, ascending.
pub fn places_of(alloc: Global, counts: &[u8]) -> Result<Vec<u32>, AllocError>
    requires { length counts.now < 2 ^ 32 }
    ensures { IfOk result (λ places. places.items ≡ counted counts.now) }
{
    let mut places = Vec::new(alloc);
    for place in 0..counts.len() {
        if counts[place] > 0 {
            places.push(place as u32)?;
        }
    }
    Ok(places)
}

/// The word at a number of the linked bytes.
pub fn word_at(layout: &Layout, image: &[u8], place: u32) -> Word
    requires { place + 4 ≤ length image.now }
    ensures { result ≡ word_at layout.now image.now place }
{
    Word {
        place,
        target: layout.off(little_word(image, place as usize)),
    }
}
