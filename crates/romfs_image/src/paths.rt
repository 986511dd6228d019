//! The path of a node, from the root on.

ghost use Rattle.std.specs.Prelude.{◌≡◌, ◌++◌, map, reverse, option_map, IfOk, string_bytes};
ghost use Rattle.std.specs.List.{flat_map};
ghost use Rattle.romfs_image.specs.Code.{node_value};
ghost use Rattle.romfs_image.specs.Paths.{numbered, names_to, is_plain, escape, spelled_byte, step_text, path_text};

use crate::node::RomNode;
use std::alloc::{AllocError, Global};

/// The node of a number.
fn numbered<'a, 'b>(nodes: &'b [RomNode<'a>], number: usize) -> Option<&'b RomNode<'a>>
    ensures { option_map (λ node. node_value node.now) result ≡ numbered (map node_value nodes.now) number }
{
    if number == 0 {
        return None;
    }
    nodes.get(number - 1)
}

/// The names from the node of a number, counted from 1, up to one of the root's list.
pub fn names_up<'a>(
    alloc: Global,
    nodes: &[RomNode<'a>],
    number: usize,
) -> Result<Vec<&'a [u8]>, AllocError>
    ensures { IfOk result (λ names. reverse (map (λ name. name.now) names.items) ≡ names_to number (map node_value nodes.now) number) }
{
    let mut names = Vec::new(alloc);
    let mut at = number;
    for _ in 0..number {
        match numbered(nodes, at) {
            Some(node) => {
                names.push(node.name)?;
                at = node.parent as usize;
            }
            None => return Ok(names),
        }
    }
    Ok(names)
}

fn is_plain(byte: u8) -> bool
    ensures { result ≡ is_plain byte }
{
    (b'!'..=b'~').contains(&byte) && byte != b'\\'
}

fn push_escape(text: &mut String, byte: u8) -> Result<(), AllocError>
    ensures { IfOk result (λ _. string_bytes text.new ≡ string_bytes text.old ++ escape byte) }
{
    write!(text, "\\x{byte:02x}")
}

/// The byte itself, or `\xHH`.
fn push_byte(text: &mut String, byte: u8) -> Result<(), AllocError>
    ensures { IfOk result (λ _. string_bytes text.new ≡ string_bytes text.old ++ spelled_byte byte) }
{
    if is_plain(byte) {
        text.push(char::from(byte))
    } else {
        push_escape(text, byte)
    }
}

/// A slash and a name.
fn push_step(text: &mut String, name: &[u8]) -> Result<(), AllocError>
    ensures { IfOk result (λ _. string_bytes text.new ≡ string_bytes text.old ++ step_text name.now) }
{
    text.push('/')?;
    for byte in name {
        push_byte(text, *byte)?;
    }
    Ok(())
}

/// Names, of which the last one comes first.
fn push_steps(text: &mut String, names: &mut Vec<&[u8]>) -> Result<(), AllocError>
    ensures { IfOk result (λ _. string_bytes text.new ≡ string_bytes text.old ++ flat_map step_text (reverse (map (λ name. name.now) names.old.items))) }
{
    for _ in 0..names.len() {
        let Some(name) = names.pop() else {
            return Ok(());
        };
        push_step(text, name)?;
    }
    Ok(())
}

/// Appends the path of the node of a number, counted from 1: a slash and a name for each folder on the way from the root, and
/// for the node itself. Bytes outside 0x21 to 0x7e and the backslash are written `\xHH`. It takes no more than a word a
/// folder beside the text.
#[tactic(auto, unfolding(crate::specs::Paths::path_text))]
pub fn push_path(text: &mut String, nodes: &[RomNode<'_>], number: usize) -> Result<(), AllocError>
    ensures { IfOk result (λ _. string_bytes text.new ≡ string_bytes text.old ++ path_text (map node_value nodes.now) number) }
{
    let mut names = names_up(*text.allocator(), nodes, number)?;
    push_steps(text, &mut names)
}
