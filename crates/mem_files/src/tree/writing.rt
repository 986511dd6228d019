//! The bytes of a file.

ghost use Rattle.std.specs.Prelude.{◌≡◌};
ghost use Rattle.mem_files.specs.Calls.{Writes};
ghost use Rattle.mem_files.specs.Changes.{written};

use super::{MOST_OF_ALL, MOST_OF_ONE, Tree};
use crate::fault::FileFault;
use call_log::Errno;

impl Tree {
    /// Writes from a position on. A gap before it is filled with zeros, and a write of no bytes changes nothing.
    pub fn write_at(&mut self, id: u32, at: u64, bytes: &[u8]) -> Result<(), FileFault>
        ensures { Writes (written self.old id at bytes.now) self.old self.new result }
    {
        let len = bytes.len() as u64;
        if len == 0 {
            return Ok(());
        }
        if at > MOST_OF_ONE || len > MOST_OF_ONE - at {
            return Err(FileFault::Errno(Errno::Efbig));
        }
        let Some(mut inode) = self.take(id) else {
            return Ok(());
        };
        let answer = inode.write(at as usize, bytes, MOST_OF_ALL - self.bytes);
        self.put(id, inode);
        answer
    }
}
