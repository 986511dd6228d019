//! Making an image: where each header stands is known before the first is written.

ghost use Rattle.std.specs.Prelude.{◌≡◌, ℕ, ◌+◌, ◌-◌, ◌*◌, ◌%◌, ◌<◌, ◌≤◌, ◌^◌, ◌⊎◌, [], ◌∷◌, ◌++◌, length, map, replicate, reverse, codes, slice_index, OnOk, IfOk, MatchOption, MatchResult, take};
ghost use Rattle.romfs_image.specs.Words.{word_sum, padded};
ghost use Rattle.romfs_image.specs.Text.{words_text, balance, with_padding, name_text, header_text, header_len, node_len, file_bits, dots_text, node_text, end_at, headers_of, places, nodes_text, list_text, super_text, rom_text, most_bytes};
ghost use Rattle.romfs_image.specs.Given.{AreNodes};
ghost use Rattle.romfs_image.specs.declared.fault.MakeFault.TheVariants as MakeFault;
ghost use Rattle.romfs_image.specs.Code.{node_value, Places, AreNamed, HasHeads, AreSmall};

use crate::fault::MakeFault;
use crate::header::{header_len, padded, sum_of};
use crate::node::{RomKind, RomNode};
use crate::place::Place;
use std::alloc::{AllocError, Global};
use std::collections::BTreeMap;

/// A folder's type, 1, and the executable bit, 8, beside the position of the next header.
const FOLDER_BITS: u32 = 9;

/// A file's type.
const FILE_BITS: u32 = 2;

/// A file's type and the executable bit.
const PROGRAM_BITS: u32 = 10;

/// The position of the root's header, and that behind its `..`.
const ROOT: u32 = 32;

const FIRST_NODE: u32 = 96;

/// The bytes of a folder's `.` and `..`.
const DOTS_LEN: u32 = 64;

/// The most bytes of an image.
pub const MOST_BYTES: u32 = 67_108_864;

/// Adds words, the highest byte of each first.
fn push_words(out: &mut Vec<u8>, words: &[u32]) -> Result<(), AllocError>
    ensures { OnOk result (out.new.items ≡ out.old.items ++ words_text words.now) }
{
    for word in words {
        out.extend_from_slice(&word.to_be_bytes())?;
    }
    Ok(())
}

/// Adds the zeros that stand behind so many bytes.
fn push_padding(out: &mut Vec<u8>, len: usize) -> Result<(), AllocError>
    requires { len < 2 ^ 63 }
    ensures { OnOk result (out.new.items ≡ out.old.items ++ replicate (padded len - len) 0) }
{
    for _ in 0..padded(len) - len {
        out.push(0)?;
    }
    Ok(())
}

/// Adds bytes with their padding.
fn push_padded(out: &mut Vec<u8>, bytes: &[u8]) -> Result<(), AllocError>
    requires { length bytes.now < 2 ^ 63 }
    ensures { OnOk result (out.new.items ≡ out.old.items ++ with_padding bytes.now) }
{
    out.extend_from_slice(bytes)?;
    push_padding(out, bytes.len())
}

/// A name with its zero and padding.
fn name_text(alloc: Global, name: &[u8]) -> Result<Vec<u8>, AllocError>
    requires { length name.now < 2 ^ 32 }
    ensures { IfOk result (λ text. text.items ≡ name_text name.now) }
{
    let mut text = Vec::from_slice(alloc, name)?;
    text.push(0)?;
    push_padding(&mut text, name.len() + 1)?;
    Ok(text)
}

/// The checksum of a header with these words and this text of its name.
fn checksum(next: u32, info: u32, size: u32, name: &[u8]) -> u32
    ensures { result ≡ balance (next + info + size + word_sum name.now) }
{
    let sum = next
        .wrapping_add(info)
        .wrapping_add(size)
        .wrapping_add(sum_of(name));
    0u32.wrapping_sub(sum)
}

/// Adds a header; the word `next` has the type and the executable bit.
#[tactic(auto, unfolding(crate::specs::Text::header_text))]
fn push_header(
    out: &mut Vec<u8>,
    next: u32,
    info: u32,
    size: u32,
    name: &[u8],
) -> Result<(), AllocError>
    requires { length name.now < 2 ^ 32 }
    ensures { OnOk result (out.new.items ≡ out.old.items ++ header_text next info size name.now) }
{
    let text = name_text(*out.allocator(), name)?;
    push_words(out, &[next, info, size, checksum(next, info, size, &text)])?;
    out.extend_from_slice(&text)?;
    Ok(())
}

/// Adds the `.` and `..` of a folder whose header stands at `own`.
#[tactic(auto, unfolding(crate::specs::Text::dots_text))]
fn push_dots(
    out: &mut Vec<u8>,
    at: u32,
    own: u32,
    parent: u32,
    first: u32,
) -> Result<(), AllocError>
    requires { at < 2 ^ 31 }
    ensures { OnOk result (out.new.items ≡ out.old.items ++ dots_text at own parent first) }
{
    push_header(out, at + 32, own, 0, b".")?;
    push_header(out, first, parent, 0, b"..")
}

/// Adds a node: its header, and a file's bytes or a folder's `.` and `..`.
#[tactic(auto, unfolding(crate::specs::Text::node_text))]
fn push_node(out: &mut Vec<u8>, node: &RomNode<'_>, place: &Place) -> Result<(), AllocError>
    requires name { length node.now.name.now ≤ 255 }
    requires bytes { length node.now.bytes.now < 2 ^ 31 }
    requires at { place.now.at < 2 ^ 30 }
    requires next { place.now.next < 2 ^ 30 }
    ensures { OnOk result (out.new.items ≡ out.old.items ++ node_text place.now (node_value node.now)) }
{
    let Place {
        at,
        next,
        parent,
        first,
    } = *place;
    match node.kind {
        RomKind::Dir => {
            let list = at + header_len(node.name) as u32;
            push_header(out, next + FOLDER_BITS, list, 0, node.name)?;
            push_dots(out, list, at, parent, first)
        }
        RomKind::File => {
            let bits = if node.exec { PROGRAM_BITS } else { FILE_BITS };
            push_header(out, next + bits, 0, node.bytes.len() as u32, node.name)?;
            push_padded(out, node.bytes)
        }
    }
}

/// The bytes of a node's header and of what stands behind it.
#[tactic(auto, unfolding(crate::specs::Text::node_len))]
fn node_len(node: &RomNode<'_>) -> u32
    requires name { length node.now.name.now ≤ 255 }
    requires bytes { length node.now.bytes.now ≤ most_bytes }
    ensures value { result ≡ node_len (node_value node.now) }
    ensures small { result < 2 ^ 31 }
{
    let behind = match node.kind {
        RomKind::Dir => DOTS_LEN,
        RomKind::File => padded(node.bytes.len()) as u32,
    };
    header_len(node.name) as u32 + behind
}

/// The position behind the last node, unless it is above `MOST_BYTES`.
fn end_of(nodes: &[RomNode<'_>]) -> Option<u32>
    requires { AreNamed (map node_value nodes.now) }
    ensures { MatchOption result (most_bytes < end_at 96 (map node_value nodes.now))
        (λ end. (end ≡ end_at 96 (map node_value nodes.now)) × (end ≤ most_bytes)) }
{
    let mut at = FIRST_NODE;
    for node in nodes {
        if node.bytes.len() > MOST_BYTES as usize {
            return None;
        }
        at += node_len(node);
        if at > MOST_BYTES {
            return None;
        }
    }
    Some(at)
}

/// The positions of the root's header and of each node's.
fn headers_of(alloc: Global, nodes: &[RomNode<'_>]) -> Result<Vec<u32>, AllocError>
    requires named { AreNamed (map node_value nodes.now) }
    requires fit { end_at 96 (map node_value nodes.now) ≤ most_bytes }
    ensures { IfOk result (λ headers. headers.items ≡ headers_of (map node_value nodes.now)) }
{
    let mut headers = Vec::with_capacity(alloc, nodes.len() + 1)?;
    headers.push(ROOT)?;
    let mut at = FIRST_NODE;
    for node in nodes {
        headers.push(at)?;
        at += node_len(node);
    }
    Ok(headers)
}

/// Gives a node its place, before the nodes whose folders' first headers `heads` has, and adds it there.
fn placed(
    heads: &mut BTreeMap<u32, u32>,
    headers: &[u32],
    number: u32,
    at: u32,
    node: &RomNode<'_>,
) -> Result<Place, AllocError>
    ensures { IfOk result (λ place. Places headers.now heads.old heads.new number at (node_value node.now) place) }
{
    let place = Place {
        at,
        next: heads.get(&node.parent).copied().unwrap_or(0),
        parent: headers.get(node.parent as usize).copied().unwrap_or(0),
        first: heads.get(&number).copied().unwrap_or(0),
    };
    heads.insert(node.parent, at)?;
    Ok(place)
}

/// The places of the nodes, that of the last one first. Then `heads` has the first header of each folder.
fn places_of(
    alloc: Global,
    heads: &mut BTreeMap<u32, u32>,
    headers: &[u32],
    nodes: &[RomNode<'_>],
    end: u32,
) -> Result<Vec<Place>, AllocError>
    requires named { AreNamed (map node_value nodes.now) }
    requires end { end ≡ end_at 96 (map node_value nodes.now) }
    requires fit { end ≤ most_bytes }
    requires heads { HasHeads heads.old end [] }
    ensures places { IfOk result (λ list. reverse list.items ≡ places headers.now 1 96 (map node_value nodes.now)) }
    ensures heads { OnOk result (HasHeads heads.new 96 (map node_value nodes.now)) }
{
    let mut places = Vec::with_capacity(alloc, nodes.len())?;
    let mut at = end;
    for behind in 0..nodes.len() {
        let index = nodes.len() - 1 - behind;
        let node = &nodes[index];
        at -= node_len(node);
        let place = placed(heads, headers, index as u32 + 1, at, node)?;
        places.push(place)?;
    }
    Ok(places)
}

/// Adds the nodes, of whose places the last one is the first node's.
fn push_nodes(
    out: &mut Vec<u8>,
    places: &mut Vec<Place>,
    nodes: &[RomNode<'_>],
) -> Result<(), AllocError>
    requires named { AreNamed (map node_value nodes.now) }
    requires fit { end_at 0 (map node_value nodes.now) ≤ most_bytes }
    requires small { AreSmall (reverse places.old.items) }
    ensures { OnOk result (out.new.items ≡ out.old.items ++ nodes_text (reverse places.old.items) (map node_value nodes.now)) }
{
    for node in nodes {
        let Some(place) = places.pop() else {
            return Ok(());
        };
        push_node(out, node, &place)?;
    }
    Ok(())
}

/// Adds the superblock of an image of so many bytes.
fn push_super(out: &mut Vec<u8>, full: u32, sum: u32) -> Result<(), AllocError>
    ensures { OnOk result (out.new.items ≡ out.old.items ++ super_text full sum) }
{
    out.extend_from_slice(b"-rom1fs-")?;
    push_words(out, &[full, sum])?;
    let name = name_text(*out.allocator(), b"flatc")?;
    out.extend_from_slice(&name)
}

/// Adds the root's list.
#[tactic(auto, unfolding(crate::specs::Text::list_text))]
fn push_list(
    alloc: Global,
    out: &mut Vec<u8>,
    nodes: &[RomNode<'_>],
    end: u32,
) -> Result<(), AllocError>
    requires named { AreNamed (map node_value nodes.now) }
    requires end { end ≡ end_at 96 (map node_value nodes.now) }
    requires fit { end ≤ most_bytes }
    ensures { OnOk result (out.new.items ≡ out.old.items ++ list_text (map node_value nodes.now)) }
{
    let headers = headers_of(alloc, nodes)?;
    let mut heads = BTreeMap::new(alloc);
    let mut places = places_of(alloc, &mut heads, &headers, nodes, end)?;
    let first = heads.get(&0).copied().unwrap_or(0);
    push_header(out, 64 + FOLDER_BITS, ROOT, 0, b".")?;
    push_header(out, first, ROOT, 0, b"..")?;
    push_nodes(out, &mut places, nodes)
}

/// The checksum of an image's superblock.
fn super_sum(alloc: Global, full: u32, list: &[u8]) -> Result<u32, AllocError>
    ensures { IfOk result (λ sum. sum ≡ balance (word_sum (take 512 (super_text full 0 ++ list.now)))) }
{
    let mut head = Vec::new(alloc);
    push_super(&mut head, full, 0)?;
    head.extend_from_slice(list.split_at(list.len().min(480)).0)?;
    Ok(0u32.wrapping_sub(sum_of(&head)))
}

/// The image of nodes, unless it has more than `MOST_BYTES`. Each header is written once.
#[tactic(auto, unfolding(crate::specs::Text::rom_text, crate::specs::Text::image_text))]
pub fn make(alloc: Global, nodes: &[RomNode<'_>]) -> Result<Vec<u8>, MakeFault>
    requires { AreNodes (map node_value nodes.now) }
    ensures { MatchResult result
        (λ text. (text.items ≡ rom_text (map node_value nodes.now)) × (length text.items ≤ most_bytes))
        (λ fault. (fault ≡ MakeFault.Memory) ⊎ ((fault ≡ MakeFault.TooLarge) × (most_bytes < length (rom_text (map node_value nodes.now))))) }
{
    let Some(end) = end_of(nodes) else {
        return Err(MakeFault::TooLarge);
    };
    let mut list = Vec::with_capacity(alloc, end as usize)?;
    push_list(alloc, &mut list, nodes, end)?;
    let mut out = Vec::with_capacity(alloc, end as usize)?;
    push_super(&mut out, end, super_sum(alloc, end, &list)?)?;
    out.extend_from_slice(&list)?;
    Ok(out)
}
