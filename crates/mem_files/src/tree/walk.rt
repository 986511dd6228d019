//! What a path leads to.

ghost use Rattle.std.specs.Prelude.{◌≡◌};
ghost use Rattle.mem_files.specs.Paths.{place_of, next_place, lookup};
ghost use Rattle.mem_files.specs.Walks.{place_value, place_answer, vacant_in};

use super::{ROOT, Tree};
use crate::paths::{is_too_long, next_name};
use crate::place::Place;
use call_log::Errno;

impl Tree {
    /// The number of what a path leads to; None where only the last name is missing (POSIX.1-2017, 4.13). All paths begin at
    /// the root.
    pub fn lookup(&self, path: &[u8]) -> Result<Option<u32>, Errno>
        ensures { result ≡ lookup self.now path.now }
    {
        match self.place(path) {
            Ok(place) => Ok(place.id),
            Err(errno) => Err(errno),
        }
    }

    /// Where a walk along the whole path ends.
    pub(super) fn place<'a>(&self, path: &'a [u8]) -> Result<Place<'a>, Errno>
        ensures { place_answer result ≡ place_of self.now path.now }
    {
        if is_too_long(path) {
            return Err(Errno::Enametoolong);
        }
        if path.is_empty() {
            return Err(Errno::Enoent);
        }
        let mut place = Place {
            id: Some(ROOT),
            folder: ROOT,
            name: &[],
        };
        let mut rest = path;
        while let Some((name, more)) = next_name(rest) {
            place = self.next_place(place, name)?;
            rest = more;
        }
        Ok(place)
    }

    /// Where a path ends that leads to nothing yet.
    pub(super) fn vacant_place<'a>(&self, path: &'a [u8]) -> Result<Place<'a>, Errno>
        ensures { place_answer result ≡ vacant_in (place_of self.now path.now) }
    {
        let place = self.place(path)?;
        match place.id {
            Some(_) => Err(Errno::Eexist),
            None => Ok(place),
        }
    }

    /// One name further.
    fn next_place<'a>(&self, place: Place<'_>, name: &'a [u8]) -> Result<Place<'a>, Errno>
        ensures { place_answer result ≡ next_place self.now name.now place.entry.id }
    {
        let Some(folder) = place.id else {
            return Err(Errno::Enoent);
        };
        let Some(inode) = self.inode(folder) else {
            return Err(Errno::Enotdir);
        };
        let id = inode.find(folder, name)?;
        Ok(Place { id, folder, name })
    }
}
