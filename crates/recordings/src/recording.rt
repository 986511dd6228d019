//! The recording of one space.

ghost use Rattle.std.specs.Prelude.{◌≡◌, ◌≤◌, ◌<◌, ◌^◌, ◌++◌, ◌∷◌, ℕ, [], List, Some, OnOk, OnErr, length, min, option_map};
ghost use Rattle.call_log.specs.Notes.{has_room};
ghost use Rattle.flat_loader.specs.Frame.{texts};
ghost use Rattle.machine_world.specs.Recordings.{nothing_recorded, is_recorded, raised_in, with_brought};
ghost use Rattle.recordings.specs.Inside.{launch_value};

use call_log::Log;
use std::alloc::{AllocError, Global};
use std::marker::Model;

/// A program as it was loaded into the space.
#[derive(Drop)]
pub struct Launch {
    /// The bytes of its stack.
    pub stack: u32,
    /// The first address of its block.
    pub base: u32,
    /// The process that it was loaded for.
    pub pid: u32,
    pub args: Vec<Vec<u8>>,
    pub env: Vec<Vec<u8>>,
}

/// What is recorded of the space of one load note. Of a run without such a space nothing is.
#[derive(Drop)]
pub struct Recording {
    /// The number of the load note, from 1; 0 for none.
    keep: u32,
    launch: Option<Launch>,
    /// How many events were made in the space, other than waits; at most as many as fit.
    events: u64,
    /// What each mapping of a file brought into it.
    brought: Vec<Vec<u8>>,
    /// The bytes of all of these.
    weight: u64,
}

impl Model for Recording {
    ghost use Rattle.machine_world.specs.World.{Recording as Recorded};

    ghost Value = { Recorded };

    ghost use Rattle.recordings.specs.Inside.{recorded, IsWeighed};

    ghost view = { recorded };

    ghost invariant = { IsWeighed };
}

impl Recording {
    /// Nothing yet, of the space of this load note, or of none where it is 0.
    pub fn new(alloc: Global, keep: u32) -> Recording
        ensures { result ≡ nothing_recorded keep }
    {
        Recording {
            keep,
            launch: None,
            events: 0,
            brought: Vec::new(alloc),
            weight: 0,
        }
    }

    /// The number of the load note whose space is recorded, or 0 for none.
    pub fn kept(&self) -> u32
        ensures { result ≡ self.now.keep }
    {
        self.keep
    }

    /// The program that was loaded into the space, if it was.
    pub fn program(&self) -> Option<&Launch>
        ensures { option_map (λ launch. launch_value launch.now) result ≡ self.now.launch }
    {
        self.launch.as_ref()
    }

    /// How many events were made in the space, other than waits; at most as many as fit.
    pub fn events(&self) -> u64
        ensures { result ≡ self.now.events }
    {
        self.events
    }

    /// What each mapping of a file brought, one by one.
    pub fn brought(&self) -> &[Vec<u8>]
        ensures { texts result.now ≡ self.now.brought }
    {
        &self.brought
    }

    /// Whether this is the space that is recorded.
    pub fn has(&self, space: u32) -> bool
        ensures { result ≡ is_recorded self.now space }
    {
        self.keep != 0 && self.keep - 1 == space
    }

    /// So many events were made in a space.
    pub fn pass(&mut self, space: u32, events: u32)
        ensures { self.new ≡ record self.old { events = raised_in self.old space events } }
    {
        if self.has(space) {
            self.events = self.events.saturating_add(u64::from(events));
        }
    }

    /// The program that was loaded into the space.
    pub fn launch(&mut self, launch: Launch)
        ensures { self.new ≡ record self.old { launch = Some (launch_value launch) } }
    {
        self.launch = Some(launch);
    }

    /// Whether the log has room for so many bytes beside all that was brought.
    pub fn room(&self, log: &Log, bytes: u64) -> bool
        ensures { result ≡ has_room log.now.notes (with_brought self.now.brought bytes) }
    {
        log.room(self.weight.saturating_add(bytes))
    }

    /// What one more mapping brought.
    pub fn bring(&mut self, bytes: Vec<u8>) -> Result<(), AllocError>
        requires { with_brought self.old.brought (length bytes.items) < 2 ^ 64 }
        ensures brought { OnOk result (self.new ≡ record self.old { brought = self.old.brought ++ bytes.items ∷ [] }) }
        ensures unchanged { OnErr result (self.new ≡ self.old) }
    {
        self.brought.reserve(1)?;
        self.weight += bytes.len() as u64;
        self.brought.push_reserved(bytes);
        Ok(())
    }

    /// Takes back what the newest mapping brought: it didn't come about. Where none brought anything all stays.
    pub fn take_back(&mut self)
        ensures newest { (lists : List (List ℕ)) → (bytes : List ℕ) → self.old.brought ≡ lists ++ bytes ∷ [] → self.new ≡ record self.old { brought = lists } }
        ensures none { self.old.brought ≡ [] → self.new ≡ self.old }
    {
        if let Some(bytes) = self.brought.pop() {
            self.weight -= bytes.len() as u64;
        }
    }
}
