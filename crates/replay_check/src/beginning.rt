//! A program by itself, loaded.

ghost use Rattle.std.specs.Prelude.{◌≡◌, ◌+◌, ◌%◌, ◌^◌, ◌≤◌, true, IfOk};
ghost use Rattle.flat_loader.specs.Original.{flat_original, block_len as block_len_of};
ghost use Rattle.flat_loader.specs.Frame.{texts, frame_fits};
ghost use Rattle.flat_loader.specs.Begin.{flat_loading};
ghost use Rattle.flat_loader.specs.Alone.{solo_begin};
ghost use Rattle.replay_check.specs.Solos.{solo_of};

use crate::lone::{Lone, Runner};
use crate::memory::{LoneMemory, MOST_PAGES};
use bflt_format::Flat;
use flat_loader::{block_len, load_at};
use mmap_rules::{Owners, Range};
use phys_mem::PhysMem;
use std::alloc::{AllocError, Global};

/// The bytes at a block's start that belong to nobody: the flat file's header.
const HEADER: u32 = 64;

impl Lone {
    /// The program, loaded into the block that begins at an address, and one process.
    pub(crate) fn begin(
        alloc: Global,
        flat: &Flat,
        base: u32,
        pid: u32,
        args: &[Vec<u8>],
        env: &[Vec<u8>],
    ) -> Result<Lone, AllocError>
        requires fits { frame_fits (flat_original flat.now) (texts args.now) (texts env.now) ≡ true }
        requires page { base % 4096 ≡ 0 }
        requires above { 2 ^ 31 ≤ base }
        requires inside { base + block_len_of (flat_original flat.now) ≤ 2 ^ 31 + 2 ^ 26 }
        ensures { IfOk result (λ lone. solo_of lone ≡ solo_begin (flat_loading flat.now base (texts args.now) (texts env.now)) pid) }
    {
        let mut mem = PhysMem::new(alloc, MOST_PAGES)?;
        let regs = load_at(&mut mem, base, flat, args, env);
        let range = Range {
            from: base + HEADER,
            size: block_len(flat) - HEADER,
            writes: true,
            anonymous: false,
        };
        let mut owners = Owners::new(alloc, MOST_PAGES)?;
        owners.add(&range);
        let mut ranges = Vec::new(alloc);
        ranges.push(range)?;
        let mut stack = Vec::new(alloc);
        stack.push(Runner { pid, regs })?;
        let memory = LoneMemory {
            mem,
            owners,
            ranges,
        };
        Ok(Lone { memory, stack })
    }
}
