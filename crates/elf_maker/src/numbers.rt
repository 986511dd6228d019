//! Numbers as bytes, little-endian.

ghost use Rattle.std.specs.Prelude.{◌≡◌, ◌++◌, OnOk};
ghost use Rattle.elf_maker.specs.Spelling.{words_text, halves_text};

use std::alloc::AllocError;

/// Adds numbers of four bytes.
#[tactic(auto, unfolding(crate::specs::Spelling::words_text))]
pub fn push_words(out: &mut Vec<u8>, words: &[u32]) -> Result<(), AllocError>
    ensures { OnOk result (out.new.items ≡ out.old.items ++ words_text words.now) }
{
    for word in words {
        out.extend_from_slice(&word.to_le_bytes())?;
    }
    Ok(())
}

/// Adds numbers of two bytes.
#[tactic(auto, unfolding(crate::specs::Spelling::halves_text))]
pub fn push_halves(out: &mut Vec<u8>, halves: &[u16]) -> Result<(), AllocError>
    ensures { OnOk result (out.new.items ≡ out.old.items ++ halves_text halves.now) }
{
    for half in halves {
        out.extend_from_slice(&half.to_le_bytes())?;
    }
    Ok(())
}
