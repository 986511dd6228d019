//! Hard links, and what each entry of the walk says.

ghost use Rattle.std.specs.Prelude.{◌≡◌, ◌+◌, ◌<◌, ◌≤◌, ◌^◌, ◌⊎◌, false, Ok, Err, length, map, OnOk, IfOk, MatchResult};
ghost use Rattle.std.specs.List.{list_any};
ghost use Rattle.romfs_image.specs.declared.fault.RomFault.TheVariants.{Memory};
ghost use Rattle.romfs_image.specs.Reading.{is_dangling, file_of, node_of, linked, FilesFit};
ghost use Rattle.romfs_image.specs.Code.{kind_number, header_value, entry_value, node_value, found, HasFiles, AddsFile, Dangles};

use crate::fault::RomFault;
use crate::header::{Header, file_bytes, header_at};
use crate::kind::HeaderKind;
use crate::level::Entry;
use crate::node::{RomKind, RomNode};
use std::alloc::{AllocError, Global};
use std::collections::BTreeSet;

/// Adds the position of a file's header.
fn add_file(files: &mut BTreeSet<u32>, entry: &Entry<'_>) -> Result<(), AllocError>
    ensures { OnOk result (AddsFile files.old files.new (entry_value entry.now)) }
{
    if entry.header.kind.is_file() {
        files.insert(entry.at)?;
    }
    Ok(())
}

/// The positions of the files' headers.
fn files_of(alloc: Global, entries: &[Entry<'_>]) -> Result<BTreeSet<u32>, AllocError>
    ensures { IfOk result (λ files. HasFiles files (found entries.now)) }
{
    let mut files = BTreeSet::new(alloc);
    for entry in entries {
        add_file(&mut files, entry)?;
    }
    Ok(files)
}

/// Whether an entry is a hard link to no file of the walk.
fn is_dangling(files: &BTreeSet<u32>, entry: &Entry<'_>) -> bool
    ensures { Dangles files.now (entry_value entry.now) result }
{
    entry.header.kind.is_link() && !files.contains(&entry.header.info)
}

fn some_dangles(files: &BTreeSet<u32>, entries: &[Entry<'_>]) -> bool
    requires { HasFiles files.now (found entries.now) }
    ensures { result ≡ list_any (is_dangling (found entries.now)) (found entries.now) }
{
    for entry in entries {
        if is_dangling(files, entry) {
            return true;
        }
    }
    false
}

/// A file of the entry's name with what a header says.
fn file_of<'a>(image: &'a [u8], entry: &Entry<'a>, header: &Header<'_>) -> RomNode<'a>
    ensures { node_value result ≡ file_of image.now (entry_value entry.now) (header_value header.now) }
{
    RomNode {
        parent: entry.folder,
        name: entry.header.name,
        kind: RomKind::File,
        bytes: file_bytes(image, header),
        exec: header.exec,
    }
}

/// What an entry says.
#[tactic(auto, unfolding(crate::specs::Reading::node_of))]
fn node_of<'a>(image: &'a [u8], entry: &Entry<'a>) -> RomNode<'a>
    requires long { length image.now < 2 ^ 32 }
    requires link { kind_number entry.now.header.kind ≡ 0 → entry.now.header.info + 16 ≤ length image.now }
    ensures { node_value result ≡ node_of image.now (entry_value entry.now) }
{
    let header = &entry.header;
    match header.kind {
        HeaderKind::Folder => RomNode {
            parent: entry.folder,
            name: header.name,
            kind: RomKind::Dir,
            bytes: image.split_at(0).0,
            exec: entry.header.exec,
        },
        HeaderKind::HardLink => file_of(image, entry, &header_at(image, header.info as usize)),
        _ => file_of(image, entry, header),
    }
}

fn nodes_of<'a>(
    alloc: Global,
    image: &'a [u8],
    entries: &[Entry<'a>],
) -> Result<Vec<RomNode<'a>>, AllocError>
    requires long { length image.now < 2 ^ 32 }
    requires fit { FilesFit image.now (found entries.now) }
    requires links { list_any (is_dangling (found entries.now)) (found entries.now) ≡ false }
    ensures { IfOk result (λ nodes. map node_value nodes.items ≡ map (node_of image.now) (found entries.now)) }
{
    let mut nodes = Vec::with_capacity(alloc, entries.len())?;
    for entry in entries {
        nodes.push(node_of(image, entry))?;
    }
    Ok(nodes)
}

/// What the entries say, unless a hard link names no file of the walk.
#[tactic(auto, unfolding(crate::specs::Reading::linked))]
pub fn linked<'a>(
    alloc: Global,
    image: &'a [u8],
    entries: &[Entry<'a>],
) -> Result<Vec<RomNode<'a>>, RomFault>
    requires long { length image.now < 2 ^ 32 }
    requires fit { FilesFit image.now (found entries.now) }
    ensures { MatchResult result
        (λ nodes. linked image.now (found entries.now) ≡ Ok (map node_value nodes.items))
        (λ fault. (fault ≡ Memory) ⊎ (linked image.now (found entries.now) ≡ Err fault)) }
{
    let files = files_of(alloc, entries)?;
    if some_dangles(&files, entries) {
        return Err(RomFault::Link);
    }
    Ok(nodes_of(alloc, image, entries)?)
}
