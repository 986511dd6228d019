//! The entries of a folder.

ghost use Rattle.std.specs.Prelude.{◌≡◌, ◌++◌, ◌∷◌, [], ◌<◌, ◌^◌, None, length, filter, not, bytes_eq, option_map, slice_get, IfOk, OnOk, OnErr};
ghost use Rattle.mem_files.specs.Paths.{named};
ghost use Rattle.mem_files.specs.Seen.{entry_of};

use indexmap::IndexMap;
use std::alloc::{AllocError, Global};
use std::marker::Model;

/// The names in a folder, in the order of their making, with the numbers of their nodes.
#[derive(Drop)]
pub struct Entries {
    ids: IndexMap<Vec<u8>, u32>,
}

impl Model for Entries {
    ghost use Rattle.std.specs.Prelude.{List, ◌<◌, ◌^◌, map, length};
    ghost use Rattle.mem_files.specs.Inodes.{Entry};
    ghost use Rattle.mem_files.specs.Seen.{entry_in, AreApart};

    ghost Value = { List Entry };

    ghost view = { λ e. map entry_in e.ids.entries };

    ghost invariant = { λ e. (length e.ids.entries < 2 ^ 32) × AreApart e.ids.entries };
}

impl Entries {
    pub fn new(alloc: Global) -> Entries
        ensures { result ≡ [] }
    {
        Entries {
            ids: IndexMap::new(alloc),
        }
    }

    pub fn len(&self) -> u32
        ensures { result ≡ length self.now }
    {
        self.ids.len() as u32
    }

    /// The number of the node with a name.
    pub fn find(&self, name: &[u8]) -> Option<u32>
        ensures { result ≡ named name.now self.now }
    {
        self.ids.get(name).copied()
    }

    /// The entry at a place.
    pub fn get(&self, k: u32) -> Option<(&[u8], u32)>
        ensures { option_map entry_of result ≡ slice_get self.now k }
    {
        let (name, id) = self.ids.get_index(k as usize)?;
        Some((name.as_slice(), *id))
    }

    /// Adds an entry behind all others.
    pub fn push(&mut self, name: Vec<u8>, id: u32) -> Result<(), AllocError>
        requires { named name.items self.old ≡ None }
        ensures added { OnOk result (self.new ≡ self.old ++ record { name = name.items; id = id } ∷ []) }
        ensures err { OnErr result (self.new ≡ self.old) }
    {
        if self.ids.len() >= u32::MAX as usize {
            return Err(AllocError);
        }
        self.ids.insert(name, id)?;
        Ok(())
    }

    /// Takes the entry with a name off. The others keep their order.
    pub fn remove(&mut self, name: &[u8])
        ensures { self.new ≡ filter (λ e. not (bytes_eq e.name name.now)) self.old }
    {
        self.ids.shift_remove(name);
    }
}
