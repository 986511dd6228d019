//! Where recorded words point.

ghost use Rattle.std.specs.Prelude.{◌≡◌, ◌+◌, ◌<◌, ◌≤◌, ◌^◌, All, filter, length, map};
ghost use Rattle.flat_layout.specs.Layout.{size_of};
ghost use Rattle.elf2flt_tool.specs.Word.{lowest, places as places_of, points_outside, word_at};

use crate::overlap::lower;
use crate::places::word_at;
use crate::word::Word;
use flat_layout::Layout;

/// Whether a word points to no byte of an image of so many bytes, nor to its end.
pub fn points_outside(size: u32, word: &Word) -> bool
    ensures { result ≡ points_outside size word.now }
{
    word.target == 0 || size < word.target
}

/// The least of the places whose word points to no byte of the image, nor to its end. `image` has the linked bytes.
pub fn lowest_outside(layout: &Layout, image: &[u8], places: &[u32]) -> Option<u32>
    requires small { size_of layout.now < 2 ^ 32 }
    requires inside { All (λ place. place + 4 ≤ length image.now) places.now }
    ensures { result ≡ lowest (places_of (filter (points_outside (size_of layout.now)) (map (word_at layout.now image.now) places.now))) }
{
    let size = layout.text + layout.data_len + layout.bss;
    let mut least = None;
    for place in places {
        let word = word_at(layout, image, *place);
        if points_outside(size, &word) {
            least = Some(lower(word.place, least));
        }
    }
    least
}
