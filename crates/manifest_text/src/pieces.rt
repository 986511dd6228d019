//! Texts in pieces.

ghost use Rattle.std.specs.Prelude.{◌≡◌, map, IfOk};
ghost use Rattle.manifest_text.specs.Pieces.{pieces, words};
ghost use Rattle.manifest_text.specs.Values.{texts};

use std::alloc::{AllocError, Global};

/// What stands between the bytes of one value.
pub fn pieces(alloc: Global, text: &[u8], at: u8) -> Result<Vec<&[u8]>, AllocError>
    ensures { IfOk result (λ v. texts v.items ≡ pieces at text.now) }
{
    let mut pieces = Vec::new(alloc);
    let mut start = 0;
    for (place, byte) in text.iter().enumerate() {
        if *byte == at {
            pieces.push(&text[start..place])?;
            start = place + 1;
        }
    }
    pieces.push(&text[start..])?;
    Ok(pieces)
}

/// The words of a line, separated by one or more spaces.
#[tactic(auto, unfolding(crate::specs::Pieces::words))]
pub fn words(alloc: Global, line: &[u8]) -> Result<Vec<&[u8]>, AllocError>
    ensures { IfOk result (λ v. texts v.items ≡ words line.now) }
{
    let pieces = pieces(alloc, line, b' ')?;
    let mut words = Vec::new(alloc);
    for piece in &pieces {
        if !piece.is_empty() {
            words.push(*piece)?;
        }
    }
    Ok(words)
}
