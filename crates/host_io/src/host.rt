//! A host: files by name.
ghost use Rattle.std.specs.Prelude.{◌≡◌, ℕ, ◌≤◌, [], length, Option, OnErr};
ghost use Rattle.host_io.specs.Faults.{HasCause};
ghost use Rattle.host_io.specs.Host.{Told, LoadTold, StoreTold};
ghost use Rattle.host_io.specs.declared.host.Loaded.{Loaded};
ghost use Rattle.host_io.specs.declared.host.HostError.TheVariants as answer;

use std::alloc::{AllocError, Global};

/// What a load gave.
#[derive(Clone, Copy, PartialEq, Eq)]
pub enum Loaded {
    /// The whole file.
    All,
    /// The file has more bytes than the limit.
    TooLong,
}

/// Why a load or a store gave nothing.
#[derive(Clone, Copy, PartialEq, Eq)]
pub enum HostError {
    /// The outside refused or broke off. The count of faults rose.
    Failed,
    /// Out of memory.
    Memory,
}

impl From<AllocError> for HostError {
    ghost use Rattle.std.specs.Prelude.{◌≡◌};
    ghost use Rattle.host_io.specs.declared.host.HostError.TheVariants.{Memory};

    ghost from_gives = { λ _ e. e ≡ Memory };

    fn from(_error: AllocError) -> HostError {
        HostError::Memory
    }
}

/// Files by name. A name is any text; what it names is the host's own matter.
pub trait Host {
    // What the host tells of its files and of the names that it was asked for, if it tells them.
    ghost told: { Self → Option Told };

    // How many faults there were. At the end of its type the count stands still.
    ghost faults: { Self → ℕ };

    /// Reads the file of this name in place of what `into` has, if it has at most `limit` bytes.
    /// In every other case `into` is empty. A name that isn't there is `Failed`.
    fn load(
        &mut self,
        alloc: Global,
        name: &str,
        limit: u32,
        into: &mut Vec<u8>,
    ) -> Result<Loaded, HostError>
        ensures told { LoadTold (told self.old) (told self.new) name.now limit into.new.items result }
        ensures limit { length into.new.items ≤ limit }
        ensures too_long { result ≡ Ok Loaded.TooLong → into.new.items ≡ [] }
        ensures err { OnErr result (into.new.items ≡ []) }
        ensures cause { HasCause answer.Failed (faults self.old) (faults self.new) result };

    /// Makes the file of this name hold exactly these bytes. After an error all files that the host tells are as before.
    fn store(&mut self, alloc: Global, name: &str, bytes: &[u8]) -> Result<(), HostError>
        ensures told { StoreTold (told self.old) (told self.new) name.now bytes.now result }
        ensures cause { HasCause answer.Failed (faults self.old) (faults self.new) result };
}
