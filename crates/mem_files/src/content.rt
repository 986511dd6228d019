//! What a node has in it.

ghost use Rattle.std.specs.Prelude.{◌≡◌, ◌+◌, ◌≤◌, ◌<◌, ◌^◌, length, OnOk, OnErr};
ghost use Rattle.mem_files.specs.Changes.{overwritten};
ghost use Rattle.mem_files.specs.Inodes.{bytes_in, most_of_one};

use crate::entries::Entries;
use std::alloc::AllocError;

/// The bytes of a file, or the entries of a folder.
#[derive(Drop)]
pub enum Content {
    File(Vec<u8>),
    Folder {
        // the folder that it stands in
        parent: u32,
        entries: Entries,
    },
}

impl Content {
    ghost use Rattle.mem_files.specs.Stored.{content_value};

    /// The bytes of a file; none of a folder.
    pub fn bytes(&self) -> &[u8]
        ensures { result.now ≡ bytes_in (content_value self.now) }
    {
        match self {
            Content::File(bytes) => bytes.as_slice(),
            Content::Folder { .. } => &[],
        }
    }
}

/// Writes bytes from a position on. A gap before it is filled with zeros. Where memory is out the file stays as it was.
pub fn overwrite(file: &mut Vec<u8>, at: usize, bytes: &[u8]) -> Result<(), AllocError>
    requires { at + length bytes.now ≤ most_of_one }
    ensures written { OnOk result (file.new.items ≡ overwritten at bytes.now file.old.items) }
    ensures err { OnErr result (file.new.items ≡ file.old.items) }
{
    let end = at + bytes.len();
    file.reserve(end.saturating_sub(file.len()))?;
    if at > file.len() {
        file.resize(at, 0)?;
    }
    let (over, behind) = bytes.split_at(bytes.len().min(file.len() - at));
    file.extend_from_slice(behind)?;
    file[at..at + over.len()].copy_from_slice(over);
    Ok(())
}
