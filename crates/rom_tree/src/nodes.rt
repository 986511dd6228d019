//! The nodes of a tree, as an image has them.

ghost use Rattle.std.specs.Prelude.{◌≡◌, ◌++◌, length, map, IfOk, OnOk};
ghost use Rattle.std.specs.List.{AllByRecursion};
ghost use Rattle.mem_files.specs.Inodes.{entries_of};
ghost use Rattle.mem_files.specs.Trees.{IsTree};
ghost use Rattle.romfs_image.specs.declared.node.RomKind.TheVariants as RomKind;
ghost use Rattle.romfs_image.specs.Code.{node_value};
ghost use Rattle.romfs_image.specs.Given.{AreNodes};
ghost use Rattle.rom_tree.specs.Nodes.{waiting_in, node_in, tree_nodes};
ghost use Rattle.rom_tree.specs.Names.{CanBeWritten};
ghost use Rattle.rom_tree.specs.Code.{waiting_list, IsOfBytes};

use mem_files::{Node, ROOT, Tree};
use romfs_image::{RomKind, RomNode};
use std::alloc::{AllocError, Global};

/// The most nodes of a tree.
const MOST_NODES: u32 = 65_536;

/// An entry that the walk has still to take.
#[derive(Clone, Copy)]
pub(crate) struct Waiting<'a> {
    /// The number of its folder among the nodes, 0 for the root.
    pub(crate) parent: u32,
    pub(crate) name: &'a [u8],
    /// The number of its node in the tree.
    pub(crate) id: u32,
}

/// The files and folders of a tree in the order of a walk, so that an image can be made of them. A file is executable where
/// it has the mark of a program.
#[tactic(auto, unfolding(crate::specs::Nodes::tree_nodes))]
pub fn tree_nodes<'a>(alloc: Global, tree: &'a Tree) -> Result<Vec<RomNode<'a>>, AllocError>
    requires tree { IsTree tree.now }
    requires names { CanBeWritten tree.now }
    ensures nodes { IfOk result (λ nodes. map node_value nodes.items ≡ tree_nodes tree.now) }
    ensures order { IfOk result (λ nodes. AreNodes (map node_value nodes.items)) }
{
    let mut nodes = Vec::new(alloc);
    let mut waiting = Vec::new(alloc);
    push_entries(&mut waiting, tree, ROOT, 0)?;
    for taken in 0..MOST_NODES {
        let Some(next) = waiting.pop() else {
            return Ok(nodes);
        };
        nodes.push(node_of(tree, next.parent, next.name, next.id))?;
        push_entries(&mut waiting, tree, next.id, taken + 1)?;
    }
    Ok(nodes)
}

/// The node of an entry.
fn node_of<'a>(tree: &'a Tree, parent: u32, name: &'a [u8], id: u32) -> RomNode<'a>
    ensures value { node_value result ≡ node_in tree.now (record { parent = parent; entry = record { name = name.now; id = id } }) }
    ensures bytes { IsOfBytes (node_value result) }
{
    match tree.kind(id) {
        Node::Dir => RomNode {
            parent,
            name,
            kind: RomKind::Dir,
            bytes: &[],
            exec: true,
        },
        Node::File => file_node(parent, name, tree.bytes(id), tree.program(id).is_some()),
    }
}

/// The node of a file.
fn file_node<'a>(parent: u32, name: &'a [u8], bytes: &'a [u8], exec: bool) -> RomNode<'a>
    ensures value { node_value result ≡ record { parent = parent; name = name.now; kind = RomKind.File; bytes = bytes.now; exec = exec } }
    ensures bytes { IsOfBytes (node_value result) }
{
    RomNode {
        parent,
        name,
        kind: RomKind::File,
        bytes,
        exec,
    }
}

/// Adds the entries of a folder, which is the node of this number, the first one last.
fn push_entries<'a>(
    waiting: &mut Vec<Waiting<'a>>,
    tree: &'a Tree,
    folder: u32,
    number: u32,
) -> Result<(), AllocError>
    ensures { OnOk result (waiting_list waiting.new.items ≡ waiting_in number (entries_of tree.now folder) ++ waiting_list waiting.old.items) }
{
    let count = entry_count(tree, folder);
    for behind in 0..count {
        let Some((name, id)) = tree.entry(folder, count - 1 - behind) else {
            return Ok(());
        };
        waiting.push(Waiting {
            parent: number,
            name,
            id,
        })?;
    }
    Ok(())
}

/// How many entries a folder has; a file has none.
fn entry_count(tree: &Tree, id: u32) -> u32
    ensures { result ≡ length (entries_of tree.now id) }
{
    match tree.kind(id) {
        Node::Dir => tree.size(id),
        Node::File => 0,
    }
}
