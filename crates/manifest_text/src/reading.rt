//! The reading of a manifest.

ghost use Rattle.std.specs.Prelude.{◌≡◌, ◌^◌, ◌<◌, length};
ghost use Rattle.manifest_text.specs.Values.{texts};
ghost use Rattle.manifest_text.specs.Manifest.{numbered, lines_of, manifest_of, tree_manifest_of};
ghost use Rattle.manifest_text.specs.Reading.{draft_value, AddsLine, Drafts, Reads};

use crate::draft::Draft;
use crate::fault::ManifestRefusal;
use crate::line::read_line;
use crate::manifest::Manifest;
use crate::pieces::pieces;
use std::alloc::Global;

/// The manifest that the bytes spell, or the first fault: of the first line that has one, the first
/// in the order of `ManifestFault`; behind all lines those of line 0. A text of 2^32 - 1 bytes or
/// more isn't read: Memory.
#[tactic(auto, unfolding(crate::specs::Manifest::manifest_of))]
pub fn read(alloc: Global, bytes: &[u8]) -> Result<Manifest, ManifestRefusal>
    ensures { Reads (manifest_of bytes.now) result }
{
    let draft = read_draft(alloc, bytes)?;
    draft.whole()
}

/// As `read`, for the tree of the item lines alone: it is no fault that no start line and no quanta
/// are there.
#[tactic(auto, unfolding(crate::specs::Manifest::tree_manifest_of))]
pub fn read_tree(alloc: Global, bytes: &[u8]) -> Result<Manifest, ManifestRefusal>
    ensures { Reads (tree_manifest_of bytes.now) result }
{
    let draft = read_draft(alloc, bytes)?;
    Ok(draft.manifest())
}

/// What all lines of the bytes say, or the first fault of one.
#[tactic(auto, unfolding(crate::specs::Manifest::lines_of))]
fn read_draft(alloc: Global, bytes: &[u8]) -> Result<Draft, ManifestRefusal>
    ensures { Drafts (lines_of bytes.now) result }
{
    // The number of each line is a word, and there is one line more, at the most, than bytes.
    if bytes.len() >= u32::MAX as usize {
        return Err(ManifestRefusal::Memory);
    }
    let lines = pieces(alloc, bytes, b'\n')?;
    read_lines(alloc, &lines)
}

fn read_lines(alloc: Global, lines: &[&[u8]]) -> Result<Draft, ManifestRefusal>
    requires { length lines.now < 2 ^ 32 }
    ensures { Drafts (numbered 1 (texts lines.now)) result }
{
    let mut draft = Draft::new(alloc);
    for (place, line) in lines.iter().enumerate() {
        add_line(alloc, &mut draft, place as u32 + 1, line)?;
    }
    Ok(draft)
}

/// Adds the line of this number to the manifest so far.
fn add_line(
    alloc: Global,
    draft: &mut Draft,
    number: u32,
    text: &[u8],
) -> Result<(), ManifestRefusal>
    ensures { AddsLine (draft_value draft.old) (record { number = number; text = text.now }) (draft_value draft.new) result }
{
    let said = read_line(alloc, number, text)?;
    if let Some(fault) = draft.late_fault(&said) {
        return Err(ManifestRefusal::At {
            line: number,
            fault,
        });
    }
    draft.add(said)?;
    Ok(())
}
