//! The calls of a memory form: which of them fail, and how many there were.
ghost use Rattle.std.specs.Prelude.{◌≡◌, ◌≤◌, OnOk, OnErr};
ghost use Rattle.host_io.specs.Calls.{no_calls, is_failing, counted, with_fault, with_failing};

use std::alloc::{AllocError, Global};
use std::collections::BTreeSet;
use std::marker::Model;

#[derive(Drop)]
pub(crate) struct Calls {
    failing: BTreeSet<u64>,
    made: u64,
    faults: u64,
}

impl Model for Calls {
    ghost use Rattle.std.specs.FinSet as set;
    ghost use Rattle.host_io.specs.Calls.{CallCounts, call_counts_code};

    ghost Value = { CallCounts };

    ghost coded = { call_counts_code };

    ghost view = { λ c. record { failing = set.from_list c.failing.keys; made = c.made; faults = c.faults } };
}

impl Calls {
    pub(crate) fn new(alloc: Global) -> Calls
        ensures { result ≡ no_calls }
    {
        Calls {
            failing: BTreeSet::new(alloc),
            made: 0,
            faults: 0,
        }
    }

    /// Makes the call of this number fail. Calls count from 0.
    pub(crate) fn fail_at(&mut self, call: u32) -> Result<(), AllocError>
        ensures ok { OnOk result (self.new ≡ with_failing self.old call) }
        ensures err { OnErr result (self.new ≡ self.old) }
    {
        self.failing.insert(u64::from(call))?;
        Ok(())
    }

    /// Whether the next call is one that fails.
    pub(crate) fn is_failing(&self) -> bool
        ensures { result ≡ is_failing self.now }
    {
        self.failing.contains(&self.made)
    }

    /// Counts one call.
    pub(crate) fn count(&mut self)
        ensures { self.new ≡ counted self.old }
    {
        self.made = self.made.saturating_add(1);
    }

    /// Counts one fault.
    pub(crate) fn fault(&mut self)
        ensures fault { self.new ≡ with_fault self.old }
        ensures later { self.old.faults ≤ self.new.faults }
    {
        self.faults = self.faults.saturating_add(1);
    }
}
