//! The paths of an image's nodes.

ghost use Rattle.std.specs.Prelude.{◌≡◌, ◌∷◌, ◌++◌, map, reverse, IfOk, OnOk};
ghost use Rattle.std.specs.List.{flat_map};
ghost use Rattle.mem_files.specs.Paths.{slash};
ghost use Rattle.romfs_image.specs.Code.{node_value};
ghost use Rattle.rom_tree.specs.Paths.{rom_path};

use romfs_image::{RomNode, names_up};
use std::alloc::{AllocError, Global};

/// The path of the node of a number, counted from 1, as a tree takes it.
pub fn path_of(alloc: Global, nodes: &[RomNode<'_>], number: usize) -> Result<Vec<u8>, AllocError>
    ensures { IfOk result (λ path. path.items ≡ rom_path (map node_value nodes.now) number) }
{
    let mut names = names_up(alloc, nodes, number)?;
    let mut path = Vec::new(alloc);
    push_names(&mut path, &mut names)?;
    Ok(path)
}

/// Adds names, of which the last one comes first, each behind a slash.
fn push_names(path: &mut Vec<u8>, names: &mut Vec<&[u8]>) -> Result<(), AllocError>
    ensures { OnOk result (path.new.items ≡ path.old.items ++ flat_map (λ name. slash ∷ name) (reverse (map (λ name. name.now) names.old.items))) }
{
    for _ in 0..names.len() {
        let Some(name) = names.pop() else {
            return Ok(());
        };
        path.push(b'/')?;
        path.extend_from_slice(name)?;
    }
    Ok(())
}
