//! Names that go.

ghost use Rattle.std.specs.Prelude.{◌≡◌};
ghost use Rattle.mem_files.specs.Calls.{ChangesTree};
ghost use Rattle.mem_files.specs.Changes.{unlinked, unnamed, without_entry, without_link, may_be_entry, naming_fault, unless_fault};
ghost use Rattle.mem_files.specs.Inodes.{kind_of, size_of};
ghost use Rattle.mem_files.specs.Walks.{place_value};

use super::Tree;
use crate::node::Node;
use crate::place::{ABOVE, HERE, Place};
use call_log::Errno;

impl Tree {
    /// Takes a name from its folder: that of a folder, if `dir`, or of a file. What is open stays until it is let go.
    pub fn unlink(&mut self, path: &[u8], dir: bool) -> Result<(), Errno>
        ensures { ChangesTree (unlinked self.old path.now dir) self.old self.new result }
    {
        let place = self.place(path)?;
        if !may_be_entry(place.name) {
            return Err(Errno::Einval);
        }
        let Some(id) = place.id else {
            return Err(Errno::Enoent);
        };
        self.may_go(id, dir)?;
        self.take_name(place, id);
        Ok(())
    }

    /// Whether a node's name may go: that of an empty folder, if `dir`, or of a file.
    fn may_go(&self, id: u32, dir: bool) -> Result<(), Errno>
        ensures { result ≡ unless_fault (naming_fault dir (kind_of self.now id) (size_of self.now id)) tt }
    {
        match (self.kind(id), dir) {
            (Node::Dir, false) => Err(Errno::Eisdir),
            (Node::File, true) => Err(Errno::Enotdir),
            (Node::File, false) => Ok(()),
            (Node::Dir, true) => {
                if self.size(id) > 0 {
                    return Err(Errno::Enotempty);
                }
                Ok(())
            }
        }
    }

    /// Takes a name from its folder, and the node of this number goes where it isn't held.
    fn take_name(&mut self, place: Place<'_>, id: u32)
        ensures { self.new ≡ unnamed self.old (place_value place.entry) id }
    {
        self.remove_entry(place.folder, place.name);
        self.unname(id);
    }

    /// Takes the entry with a name off a folder.
    fn remove_entry(&mut self, at: u32, name: &[u8])
        ensures { self.new ≡ without_entry self.old at name.now }
    {
        let Some(mut folder) = self.take(at) else {
            return;
        };
        folder.remove(name);
        self.put(at, folder);
    }

    /// No folder names the node any more.
    fn unname(&mut self, id: u32)
        ensures { self.new ≡ without_link self.old id }
    {
        let Some(mut inode) = self.take(id) else {
            return;
        };
        inode.unlink();
        self.put_kept(id, inode);
    }
}

/// Whether a folder may have an entry with this name.
fn may_be_entry(name: &[u8]) -> bool
    ensures { result ≡ may_be_entry name.now }
{
    !name.is_empty() && name != HERE && name != ABOVE
}
