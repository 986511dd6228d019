//! The nodes of a romfs image, and the faults of one.
ghost use Rattle.std.specs.Prelude.{◌≡◌, ◌++◌, length, map, IfOk, IsErr, string_bytes};
ghost use Rattle.romfs_image.specs.Code.{node_value};
ghost use Rattle.romfs_image.specs.Paths.{path_text};
ghost use Rattle.file_commands.specs.Texts.{refused_line};
ghost use Rattle.file_commands.specs.Texts.Images.{rom_fault_words, rom_tail, kind_word, size_text, node_line, image_listing, image_line};

use crate::texts::refused;
use romfs_image::{RomFault, RomKind, RomNode, push_path};
use std::alloc::{AllocError, Global};

/// A line a node in the order of the walk, and their number.
pub fn image_listing(alloc: Global, nodes: &[RomNode<'_>]) -> Result<String, AllocError>
    ensures { IfOk result (λ text. string_bytes text ≡ image_listing (map node_value nodes.now)) }
{
    let mut text = String::new(alloc);
    for (index, node) in nodes.iter().enumerate() {
        push_node(&mut text, nodes, index + 1, node)?;
    }
    let count = nodes.len();
    writeln!(text, "nodes {count}")?;
    Ok(text)
}

/// Appends the line of a node, which has this number among all of them.
fn push_node(
    text: &mut String,
    nodes: &[RomNode<'_>],
    number: usize,
    node: &RomNode<'_>,
) -> Result<(), AllocError>
    ensures { IfOk result (λ _. string_bytes text.new ≡ string_bytes text.old ++ node_line (path_text (map node_value nodes.now) number) (node_value node.now)) }
{
    text.push_str(kind_word(node))?;
    push_path(text, nodes, number)?;
    push_size(text, node)
}

/// `dir`, `file`, or for a file with the executable bit `program`.
fn kind_word(node: &RomNode<'_>) -> &'static str
    ensures { result.now ≡ kind_word node.now.kind node.now.exec }
{
    match node.kind {
        RomKind::Dir => "dir ",
        RomKind::File if node.exec => "program ",
        RomKind::File => "file ",
    }
}

/// The bytes of a file, and the end of the line.
fn push_size(text: &mut String, node: &RomNode<'_>) -> Result<(), AllocError>
    ensures { IfOk result (λ _. string_bytes text.new ≡ string_bytes text.old ++ size_text node.now.kind (length node.now.bytes.now)) }
{
    match node.kind {
        RomKind::Dir => text.push('\n'),
        RomKind::File => {
            let size = node.bytes.len();
            writeln!(text, " {size}")
        }
    }
}

fn rom_fault_words(fault: RomFault) -> &'static str
    ensures { result.now ≡ rom_fault_words fault }
{
    match fault {
        RomFault::Short => "1 Short",
        RomFault::Magic => "2 Magic",
        RomFault::FullSize => "3 FullSize",
        RomFault::SuperSum => "4 SuperSum",
        RomFault::Volume => "5 Volume",
        RomFault::Header => "6 Header",
        RomFault::HeaderSum => "7 HeaderSum",
        RomFault::Name => "8 Name",
        RomFault::Order => "9 Order",
        RomFault::Range => "10 Range",
        RomFault::Repeated => "11 Repeated",
        RomFault::Link => "12 Link",
        RomFault::Memory => "",
    }
}

/// What is wrong with an image. Out of memory has no such words.
pub fn rom_tail(alloc: Global, fault: RomFault) -> Result<String, AllocError>
    ensures tail { IfOk result (λ tail. string_bytes tail ≡ rom_tail fault) }
    ensures no_tail { fault ≡ RomFault.Memory → IsErr result }
{
    match fault {
        RomFault::Memory => Err(AllocError),
        _ => {
            let words = rom_fault_words(fault);
            format!(in alloc; "rom {words}")
        }
    }
}

/// The line for an image with a fault. Out of memory has no such line.
pub fn refused_rom(alloc: Global, fault: RomFault) -> Result<String, AllocError>
    ensures line { IfOk result (λ line. string_bytes line ≡ refused_line (rom_tail fault)) }
    ensures no_line { fault ≡ RomFault.Memory → IsErr result }
{
    let tail = rom_tail(alloc, fault)?;
    refused(alloc, &tail)
}

/// The line of an image that was made: its nodes, and its bytes.
pub fn image_line(alloc: Global, nodes: usize, size: usize) -> Result<String, AllocError>
    ensures { IfOk result (λ line. string_bytes line ≡ image_line nodes size) }
{
    format!(in alloc; "romfs nodes {nodes} size {size}\n")
}
