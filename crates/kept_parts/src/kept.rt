//! What is kept of all programs.

ghost use Rattle.std.specs.Prelude.{◌≡◌, ◌≤◌, IfOk};
ghost use Rattle.machine_world.specs.Ages.{AreChanged, most_at_boot};
ghost use Rattle.kept_parts.specs.Kept.{nothing_yet};

use crate::reach::whole_table;
use crate::task::Task;
use call_log::Log;
use fd_tables::Files;
use mem_files::Tree;
use mmap_rules::{Owners, Space};
use nommu_regions::Regions;
use phys_mem::PhysMem;
use recordings::Recording;
use std::alloc::{AllocError, Global};
use std::marker::Model;
use vfork_exec::Procs;

/// What the events and the starts of a run change.
#[derive(Drop)]
pub struct KeptParts {
    /// The memory of all programs.
    pub mem: PhysMem,
    /// Which of its pages are held.
    pub regions: Regions,
    /// The table that owns each of its bytes.
    pub(crate) whole: Owners,
    /// By the number of their load note; None where the space is gone.
    pub spaces: Vec<Option<Space>>,
    /// The files and folders.
    pub tree: Tree,
    /// What is open.
    pub files: Files,
    /// The processes, with those that have ended and weren't waited for.
    pub procs: Procs<Task>,
    /// The notes. No memory is kept ready for more.
    pub log: Log,
    /// What was written to the console.
    pub console: Vec<u8>,
    /// What is recorded of one space.
    pub recording: Recording,
}

impl Model for KeptParts {
    ghost use Rattle.std.specs.Prelude.{◌≡◌, length};
    ghost use Rattle.kept_parts.specs.Kept.{Kept};

    ghost Value = { Kept };

    ghost use Rattle.kept_parts.specs.Inside.{kept_of};
    ghost use Rattle.kept_parts.specs.Reach.{whole_table};
    ghost use Rattle.kept_parts.specs.Regular.{IsRegular};

    ghost view = { kept_of };

    ghost invariant = { λ p. IsRegular (kept_of p) × (p.log.spare ≡ 0) × (p.whole ≡ whole_table (length p.regions.regions)) };
}

impl KeptParts {
    /// A memory of so many pages, in which nothing runs, over these files, which were changed at most 2^63 times each. The space of
    /// load note number `keep` is recorded, or none where that is 0.
    pub fn new(
        alloc: Global,
        pages: u32,
        tree: Tree,
        files: Files,
        keep: u32,
    ) -> Result<KeptParts, AllocError>
        requires some { 1 ≤ pages }
        requires most { pages ≤ 16384 }
        requires changes { AreChanged most_at_boot tree }
        ensures { IfOk result (λ parts. parts ≡ nothing_yet pages tree files.open_files keep) }
    {
        Ok(KeptParts {
            mem: PhysMem::new(alloc, pages)?,
            regions: Regions::new(alloc, pages)?,
            whole: whole_table(alloc, pages)?,
            spaces: Vec::new(alloc),
            tree,
            files,
            procs: Procs::new(alloc)?,
            log: Log::new(alloc)?,
            console: Vec::new(alloc),
            recording: Recording::new(alloc, keep),
        })
    }
}
