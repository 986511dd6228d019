//! The records of entries (Linux, include/linux/dirent.h, struct linux_dirent64).

ghost use Rattle.std.specs.Prelude.{◌≡◌, ◌++◌, OnOk, length};
ghost use Rattle.machine_world.specs.Descriptors.{record_len, dirent, type_of};

use mem_files::{Node, Tree};
use std::alloc::AllocError;

/// The bytes of a record before its name.
const HEAD: usize = 19;

/// Whole records, and how many they are.
#[derive(Drop)]
pub(crate) struct Listing {
    pub(crate) bytes: Vec<u8>,
    pub(crate) count: u32,
}

/// The length of an entry's record.
pub(crate) fn record_len(name: &[u8]) -> usize
    ensures { result ≡ record_len (length name.now) }
{
    8 * ((HEAD + name.len() + 1 + 7) / 8)
}

/// Adds the record of an entry; the entry behind it has position `next`.
pub(crate) fn push_record(
    bytes: &mut Vec<u8>,
    tree: &Tree,
    next: u64,
    name: &[u8],
    id: u32,
) -> Result<(), AllocError>
    ensures { OnOk result (bytes.new.items ≡ bytes.old.items ++ dirent tree.now next (record { name = name.now; id = id })) }
{
    let len = record_len(name);
    bytes.extend_from_slice(&u64::from(id).to_le_bytes())?;
    bytes.extend_from_slice(&next.to_le_bytes())?;
    bytes.extend_from_slice(&len.to_le_bytes()[..2])?;
    bytes.push(type_of(tree.kind(id)))?;
    bytes.extend_from_slice(name)?;
    bytes.extend_from_slice(&[0; 8][..len - (HEAD + name.len())])?;
    Ok(())
}

/// What an entry names, as a record says it: DT_DIR or DT_REG.
fn type_of(kind: Node) -> u8
    ensures { result ≡ type_of kind }
{
    match kind {
        Node::Dir => 4,
        Node::File => 8,
    }
}
