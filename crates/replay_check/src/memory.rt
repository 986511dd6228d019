//! The memory of one program by itself.

ghost use Rattle.std.specs.Prelude.{◌≡◌, false, map, true};
ghost use Rattle.call_log.specs.Sent.{sent};
ghost use Rattle.call_log.specs.Values.{got_value};
ghost use Rattle.mmap_rules.specs.Owners.{owns};
ghost use Rattle.region_watch.specs.Instructions.{instructions, ran};
ghost use Rattle.flat_loader.specs.Alone.{writable_of};
ghost use Rattle.call_bytes.specs.Reading.{Reads};
ghost use Rattle.replay_check.specs.Ranges.{own_memory};
ghost use Rattle.replay_check.specs.Answers.{AreFilled, MayPut, GivesOrRefutes, put_own};

use call_bytes::{Unread, put, read_sent};
use call_log::Got;
use mmap_rules::{Owners, Range};
use phys_mem::PhysMem;
use region_watch::{Mode, Progress, Watch, Window, run_steps};
use rv32im_step::Regs;
use std::alloc::Global;
use std::marker::Model;

/// The most pages that memory can have.
pub(crate) const MOST_PAGES: u32 = 16_384;

/// The address behind the last of them.
pub(crate) const MEMORY_END: u64 = 0x8400_0000;

/// Memory of which one program owns some ranges.
#[derive(Drop)]
pub(crate) struct LoneMemory {
    pub(crate) mem: PhysMem,
    pub(crate) owners: Owners,
    /// Oldest first, the program's block at the head.
    pub(crate) ranges: Vec<Range>,
}

impl Model for LoneMemory {
    ghost use Rattle.replay_check.specs.Ranges.{LoneBytes, IsLone};

    ghost Value = { LoneBytes };

    ghost view = { λ m. record { ranges = m.ranges.items; mem = m.mem } };

    ghost invariant = { λ m. IsLone m.ranges.items m.owners m.mem };
}

/// Whether all ranges of a call's output may be written.
fn may_put(owners: &Owners, got: &[Got]) -> bool
    requires { AreFilled (map got_value got.now) }
    ensures { MayPut (owns owners.now true) (map got_value got.now) result }
{
    for range in got {
        let len = range.bytes.len();
        if len > u32::MAX as usize || !owners.own(range.addr, len as u32, true) {
            return false;
        }
    }
    true
}

impl LoneMemory {
    /// Carries out up to `count` instructions, and stops at the first that isn't carried out.
    pub(crate) fn run(&mut self, regs: &mut Regs, count: u32) -> Progress
        ensures leaves { ran regs.new (own_memory self.new).bytes result.done result.stop ≡ instructions count (writable_of self.old.ranges) regs.old (own_memory self.old).bytes }
        ensures ranges { self.new.ranges ≡ self.old.ranges }
    {
        let block = self.ranges[0];
        let window = Window {
            from: block.from,
            size: block.size,
        };
        let mut watch = Watch::with_window(&mut self.mem, &self.owners, Mode::Halt, window);
        run_steps(regs, &mut watch, count)
    }

    /// The bytes that a call reads.
    pub(crate) fn sent(
        &self,
        alloc: Global,
        number: u32,
        args: &[u32; 6],
    ) -> Result<Vec<u8>, Unread>
        ensures { Reads (sent number args.now (own_memory self.now).bytes) result }
    {
        read_sent(alloc, &self.mem, &self.owners, number, args)
    }

    /// Writes what a call gives, where all of it may be written; else nothing.
    pub(crate) fn put(&mut self, got: &[Got]) -> bool
        requires { AreFilled (map got_value got.now) }
        ensures gives { GivesOrRefutes (put_own (own_memory self.old) (map got_value got.now)) result (own_memory self.new) }
        ensures kept { result ≡ false → self.new ≡ self.old }
    {
        if !may_put(&self.owners, got) {
            return false;
        }
        put(&mut self.mem, got);
        true
    }
}
