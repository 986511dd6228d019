//! Reading an image.

ghost use Rattle.std.specs.Prelude.{◌≡◌, ◌<◌, ◌≤◌, ◌^◌, ◌⊎◌, List, None, Some, Ok, Err, length, take, map, IfOk, MatchResult};
ghost use Rattle.romfs_image.specs.declared.fault.RomFault.TheVariants.{Memory};
ghost use Rattle.romfs_image.specs.Header.{name_end};
ghost use Rattle.romfs_image.specs.Fault.{full_size, image_of, super_fault};
ghost use Rattle.romfs_image.specs.Reading.{rom_read};
ghost use Rattle.romfs_image.specs.Code.{node_value};

use crate::fault::RomFault;
use crate::header::{name_end, sums_to_zero};
use crate::links::linked;
use crate::node::RomNode;
use crate::walk::walk;
use byte_words::big_word;
use std::alloc::Global;
use std::marker::Model;

const MAGIC: [u8; 8] = *b"-rom1fs-";

/// The bytes of a superblock whose volume name has at most 15 bytes.
const SUPER_LEN: u32 = 32;

/// The superblock's sum is over so many bytes at most.
const SUMMED_LEN: usize = 512;

/// An image that was read. Contracts see it as the list of its nodes.
#[derive(Drop)]
pub struct Rom<'a> {
    nodes: Vec<RomNode<'a>>,
}

impl<'a> Model for Rom<'a> {
    ghost use Rattle.std.specs.Prelude.{List, map};
    ghost use Rattle.romfs_image.specs.Nodes.{RomValue};
    ghost use Rattle.romfs_image.specs.Code.{node_value};

    ghost Value = { List RomValue };

    ghost view = { λ rom. map node_value rom.nodes.items };
}

/// The image itself, of the size that the superblock says.
#[tactic(auto, unfolding(crate::specs::Fault::image_of))]
fn image_of(bytes: &[u8], full: u32) -> &[u8]
    requires full { full ≡ full_size bytes.now }
    requires fits { full ≤ length bytes.now }
    ensures value { result.now ≡ image_of bytes.now }
    ensures len { length result.now ≡ full }
{
    bytes.split_at(full as usize).0
}

/// The bytes whose words the superblock's checksum makes sum to 0.
fn summed(image: &[u8]) -> &[u8]
    ensures { result.now ≡ take 512 image.now }
{
    image.split_at(image.len().min(SUMMED_LEN)).0
}

/// The image itself, of which a file may have more bytes, unless its superblock has a fault.
#[tactic(auto, unfolding(crate::specs::Fault::super_fault))]
fn sound_image(bytes: &[u8]) -> Result<&[u8], RomFault>
    ensures fault { MatchResult result (λ image. super_fault bytes.now ≡ None) (λ fault. super_fault bytes.now ≡ Some fault) }
    ensures image { IfOk result (λ image. image.now ≡ image_of bytes.now) }
    ensures long { IfOk result (λ image. length image.now < 2 ^ 32) }
    ensures volume { IfOk result (λ image. name_end image.now 0 ≤ length image.now) }
{
    if bytes.len() < SUPER_LEN as usize {
        return Err(RomFault::Short);
    }
    if bytes.split_at(8).0 != MAGIC.as_slice() {
        return Err(RomFault::Magic);
    }
    let full = big_word(bytes, 8);
    if full < SUPER_LEN || bytes.len() < full as usize {
        return Err(RomFault::FullSize);
    }
    let image = image_of(bytes, full);
    if !sums_to_zero(summed(image)) {
        return Err(RomFault::SuperSum);
    }
    if name_end(image, 0) > image.len() {
        return Err(RomFault::Volume);
    }
    Ok(image)
}

impl<'a> Rom<'a> {
    /// Reads an image, or says its first fault. Headers of other types than hard links, folders and files
    /// are passed over; a hard link is a file of its own, with the bytes and the executable bit of the file
    /// that it names.
    #[tactic(auto, unfolding(crate::specs::Reading::rom_read))]
    pub fn read(alloc: Global, bytes: &'a [u8]) -> Result<Rom<'a>, RomFault>
        ensures { MatchResult result
            (λ rom. rom_read bytes.now ≡ Ok rom)
            (λ fault. (fault ≡ Memory) ⊎ (rom_read bytes.now ≡ Err fault)) }
    {
        let image = sound_image(bytes)?;
        let entries = walk(alloc, image)?;
        let nodes = linked(alloc, image, &entries)?;
        Ok(Rom { nodes })
    }

    /// The files and folders in the order of the walk.
    pub fn nodes(&self) -> &[RomNode<'a>]
        ensures { map node_value result.now ≡ self.now }
    {
        &self.nodes
    }
}
