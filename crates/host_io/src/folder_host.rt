//! The host over real files. It tells no content; its lines over std are trusted.
ghost use Rattle.std.specs.Prelude.{◌≡◌, ◌≤◌, ℕ, [], length, None, OnErr};
ghost use Rattle.host_io.specs.declared.host.Loaded.{Loaded};

use crate::host::{Host, HostError, Loaded};
use crate::kinds::open_to_read;
use crate::reading::read_at_most;
use crate::replacing::{NewNames, write_file};
use std::alloc::Global;
use std::marker::Model;
use std::rt::Files;

/// Files by their paths, from the current folder of the process on.
///
/// A store writes a new file in the folder of its target, flushes it to the disk, renames it over the
/// target, and flushes the folder. So after `Failed` the old file is as it was, and the new one is removed,
/// if the system lets it; but where that last flush fails, the new file stands, and may not outlast a power
/// cut. The new file has the access bits of the old one, or those of any new file, and until it has them
/// nobody else may open it. A target that may not be written is `Failed`, and so is a symbolic link to a
/// plain file, or to none, since a store changes the file of one name alone. A hard link's other names keep
/// the old file.
///
/// Of what is no plain file a load reads, and a store writes straight, only what keeps nobody waiting for a
/// partner: the devices null, zero and full, and a pipe without a path, which is open already; a store also
/// the device to which standard output or standard error goes. What such a target took it keeps. A pipe with
/// a path, and every other device, is `Failed`, and isn't opened.
#[derive(Drop)]
pub struct FolderHost<R: Files> {
    files: R,
    names: NewNames,
    faults: u64,
}

impl<R: Files> Model for FolderHost<R> {
    ghost Value = { ℕ };

    ghost view = { λ h. h.faults };
}

impl<R: Files> FolderHost<R> {
    /// A host whose new files are called `.PROGRAM-N.tmp`, where N is the first number from `process`
    /// on that is free in the folder. The program's name has no slash.
    pub fn new(files: R, program: &'static str, process: u32) -> FolderHost<R>
        ensures { result ≡ 0 }
    {
        FolderHost {
            files,
            names: NewNames {
                program,
                first: process,
            },
            faults: 0,
        }
    }
}

impl<R: Files> Host for FolderHost<R> {
    ghost told = { λ _. None };

    ghost faults = { λ faults. faults };

    fn load(
        &mut self,
        alloc: Global,
        name: &str,
        limit: u32,
        into: &mut Vec<u8>,
    ) -> Result<Loaded, HostError> {
        into.clear();
        let outcome = load_file(alloc, &self.files, name, limit, into);
        if let Err(HostError::Failed) = outcome {
            self.faults = self.faults.saturating_add(1);
        }
        outcome
    }

    fn store(&mut self, alloc: Global, name: &str, bytes: &[u8]) -> Result<(), HostError> {
        let outcome = write_file(alloc, &self.files, self.names, name, bytes);
        if let Err(HostError::Failed) = outcome {
            self.faults = self.faults.saturating_add(1);
        }
        outcome
    }
}

/// Reads the file of this name into an empty buffer.
fn load_file<R: Files>(
    alloc: Global,
    files: &R,
    name: &str,
    limit: u32,
    into: &mut Vec<u8>,
) -> Result<Loaded, HostError>
    requires { into.old.items ≡ [] }
    ensures limit { length into.new.items ≤ limit }
    ensures too_long { result ≡ Ok Loaded.TooLong → into.new.items ≡ [] }
    ensures err { OnErr result (into.new.items ≡ []) }
{
    read_at_most(open_to_read(alloc, files, name)?, limit, into)
}
