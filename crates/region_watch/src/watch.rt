//! A bus that refuses stray accesses, or carries them out, and tells the first.

ghost use Rattle.std.specs.Prelude.{◌≡◌, ℕ, ◌+◌, ◌*◌, ◌<◌, ◌≤◌, true, false, length, None, is_ok, IfErr};
ghost use Rattle.std.proofs.Common.{refl, ◌∙◌};
ghost use Rattle.mmap_rules.specs.Owners.{owns};
ghost use Rattle.mmap_rules.specs.Space.{may_use};
ghost use Rattle.region_watch.specs.Private.{in_pages, passes, passed_bytes, kept_bytes};
ghost use Rattle.region_watch.specs.Strays.{call_of, stray_after, stray_after_all, stray_after_on};

use crate::mode::Mode;
use mmap_rules::Owners;
use phys_mem::{BASE, PAGE, PhysMem};
use rv32im_step::{Access, AccessKind, Bus};
use rv32im_table::Instr;

/// Own bytes of a mapping, as the program's block: those from `from` on, `size` of them. All of them may be written.
/// It may be smaller than the mapping, and empty.
#[derive(Clone, Copy, PartialEq, Eq)]
pub struct Window {
    /// The first address.
    pub from: u32,
    /// In bytes.
    pub size: u32,
}

/// Physical memory as one program may use it, by its table of own bytes. An access is stray if one of its
/// bytes isn't own, or is written and may not be, or if its range passes 2^32; a range of length 0 never
/// is. In a run that halts a stray access is refused and changes nothing. In one that goes on it is carried
/// out within memory, and refused outside.
#[derive(Drop)]
pub struct Watch<'a> {
    /// The memory of all programs.
    pub mem: &'a mut PhysMem,
    /// The table of the one that is watched.
    pub owners: &'a Owners,
    /// What becomes of a stray access.
    pub mode: Mode,
    /// Where the window begins.
    pub(crate) from: u32,
    /// How many addresses from there on begin an access of 4 bytes within the window.
    pub(crate) reach: u32,
    /// The same of a second window.
    pub(crate) second_from: u32,
    pub(crate) second_reach: u32,
    pub(crate) first: Option<Access>,
    ghost paged: { length mem.now ≡ 4096 * length owners.now },
    ghost window: { 0 < reach → may_use (owns owners.now true) from (reach + 3) ≡ true },
    ghost second: { 0 < second_reach → may_use (owns owners.now true) second_from (second_reach + 3) ≡ true },
}

/// The look into the table stands apart, and takes no watch, so that a watch's fields stay in registers.
#[inline(never)]
fn own(owners: &Owners, addr: u32, len: u32, write: bool) -> bool
    ensures { result ≡ may_use (owns owners.now write) addr len }
{
    owners.own(addr, len, write)
}

/// Whether a range may be used where all of memory may.
#[inline]
fn in_memory(mem: &PhysMem, addr: u32, len: u32) -> bool
    ensures { (pages : ℕ) → length mem.now ≡ 4096 * pages → result ≡ may_use (in_pages pages) addr len }
{
    len == 0
        || addr >= BASE && u64::from(addr - BASE) + u64::from(len) <= u64::from(PAGE * mem.pages())
}

impl<'a> Watch<'a> {
    ghost use Rattle.region_watch.specs.Watched.{IsNewWatch, first_stray};

    /// A watch that has seen no access. The table has an entry for each page of memory.
    #[tactic(auto, unfolding(mmap_rules::specs::Space::may_use))]
    pub fn new(mem: &'a mut PhysMem, owners: &'a Owners, mode: Mode) -> Watch<'a>
        requires { length mem.old ≡ 4096 * length owners.now }
        ensures same_reference { result.mem.ghost_name ≡ mem.entry.ghost_name }
        ensures fresh { IsNewWatch mem.old owners.now mode result }
    {
        Watch::with_window(mem, owners, mode, Window { from: 0, size: 0 })
    }

    /// The same with a window, whose bytes the table names as own and writable: an access within it is allowed without a look into the
    /// table.
    #[inline]
    #[tactic(auto, unfolding(mmap_rules::specs::Space::may_use))]
    pub fn with_window(
        mem: &'a mut PhysMem,
        owners: &'a Owners,
        mode: Mode,
        window: Window,
    ) -> Watch<'a>
        requires paged { length mem.old ≡ 4096 * length owners.now }
        requires window { may_use (owns owners.now true) window.from window.size ≡ true }
        ensures same_reference { result.mem.ghost_name ≡ mem.entry.ghost_name }
        ensures fresh { IsNewWatch mem.old owners.now mode result }
    {
        Watch::with_windows(mem, owners, mode, window, Window { from: 0, size: 0 })
    }

    /// The same with two windows, as of a program's block and its heap.
    #[inline]
    pub fn with_windows(
        mem: &'a mut PhysMem,
        owners: &'a Owners,
        mode: Mode,
        window: Window,
        second: Window,
    ) -> Watch<'a>
        requires paged { length mem.old ≡ 4096 * length owners.now }
        requires window { may_use (owns owners.now true) window.from window.size ≡ true }
        requires second { may_use (owns owners.now true) second.from second.size ≡ true }
        ensures same_reference { result.mem.ghost_name ≡ mem.entry.ghost_name }
        ensures fresh { IsNewWatch mem.old owners.now mode result }
    {
        Watch {
            mem,
            owners,
            mode,
            from: window.from,
            reach: window.size.saturating_sub(3),
            second_from: second.from,
            second_reach: second.size.saturating_sub(3),
            first: None,
        }
    }

    /// Whether an access is to be carried out. The first that the table doesn't allow is noted.
    #[inline]
    fn looks_up(&mut self, access: Access, write: bool) -> bool
        ensures answer { result ≡ may_use (passes self.old.mode self.old.owners.now write) access.addr access.len }
        ensures mem { self.new.mem ≡ self.old.mem }
        ensures owners { self.new.owners ≡ self.old.owners }
        ensures mode { self.new.mode ≡ self.old.mode }
        ensures first { first_stray self.new ≡ stray_after (first_stray self.old) access (may_use (owns self.old.owners.now write) access.addr access.len) }
    {
        if own(self.owners, access.addr, access.len, write) {
            return true;
        }
        if self.first.is_none() {
            self.first = Some(access);
        }
        match self.mode {
            Mode::Halt => false,
            Mode::GoOn => in_memory(self.mem, access.addr, access.len),
        }
    }

    /// Whether an access of an instruction is to be carried out: the windows come before the table.
    #[inline]
    fn allows(&mut self, access: Access, write: bool) -> bool
        requires { access.len ≤ 4 }
        ensures answer { result ≡ may_use (passes self.old.mode self.old.owners.now write) access.addr access.len }
        ensures mem { self.new.mem ≡ self.old.mem }
        ensures owners { self.new.owners ≡ self.old.owners }
        ensures mode { self.new.mode ≡ self.old.mode }
        ensures first { first_stray self.new ≡ stray_after (first_stray self.old) access (may_use (owns self.old.owners.now write) access.addr access.len) }
    {
        if access.addr.wrapping_sub(self.from) < self.reach {
            return true;
        }
        if access.addr >= self.second_from && access.addr - self.second_from < self.second_reach {
            return true;
        }
        self.looks_up(access, write)
    }

    /// Whether a fetch is to be carried out. A program's code stands in its block, so that the second window isn't asked.
    #[inline]
    fn allows_fetch(&mut self, access: Access) -> bool
        requires { access.len ≤ 4 }
        ensures answer { result ≡ may_use (passes self.old.mode self.old.owners.now false) access.addr access.len }
        ensures mem { self.new.mem ≡ self.old.mem }
        ensures owners { self.new.owners ≡ self.old.owners }
        ensures mode { self.new.mode ≡ self.old.mode }
        ensures first { first_stray self.new ≡ stray_after (first_stray self.old) access (may_use (owns self.old.owners.now false) access.addr access.len) }
    {
        if access.addr.wrapping_sub(self.from) < self.reach {
            return true;
        }
        self.looks_up(access, false)
    }

    /// Whether the system call at `pc` may read a range.
    pub fn reads(&mut self, pc: u32, addr: u32, len: u32) -> Result<(), Access>
        ensures answer { is_ok result ≡ may_use (passes self.old.mode self.old.owners.now false) addr len }
        ensures refused { IfErr result (λ access. access ≡ call_of pc addr len) }
        ensures mem { self.new.mem ≡ self.old.mem }
        ensures owners { self.new.owners ≡ self.old.owners }
        ensures mode { self.new.mode ≡ self.old.mode }
        ensures first { first_stray self.new ≡ stray_after (first_stray self.old) (call_of pc addr len) (may_use (owns self.old.owners.now false) addr len) }
    {
        let access = call_access(pc, addr, len);
        if self.looks_up(access, false) {
            Ok(())
        } else {
            Err(access)
        }
    }

    /// Whether the system call at `pc` may write a range.
    pub fn writes(&mut self, pc: u32, addr: u32, len: u32) -> Result<(), Access>
        ensures answer { is_ok result ≡ may_use (passes self.old.mode self.old.owners.now true) addr len }
        ensures refused { IfErr result (λ access. access ≡ call_of pc addr len) }
        ensures mem { self.new.mem ≡ self.old.mem }
        ensures owners { self.new.owners ≡ self.old.owners }
        ensures mode { self.new.mode ≡ self.old.mode }
        ensures first { first_stray self.new ≡ stray_after (first_stray self.old) (call_of pc addr len) (may_use (owns self.old.owners.now true) addr len) }
    {
        let access = call_access(pc, addr, len);
        if self.looks_up(access, true) {
            Ok(())
        } else {
            Err(access)
        }
    }

    /// The first stray access that this watch saw.
    pub fn first(&self) -> Option<Access>
        ensures { result ≡ first_stray self.now }
    {
        self.first
    }
}

/// The access of a system call.
fn call_access(pc: u32, addr: u32, len: u32) -> Access
    ensures { result ≡ call_of pc addr len }
{
    Access {
        pc,
        addr,
        len,
        kind: AccessKind::Call,
    }
}

/// What a watch refuses is exactly the stray accesses, or, in a run that goes on, exactly those outside memory.
impl Bus for Watch<'_> {
    ghost use Rattle.region_watch.specs.Watched.{first_stray};

    ghost byte = { λ s. passed_bytes s.mode s.owners.now s.mem.now };

    ghost writable = { λ s. passes s.mode s.owners.now true };

    ghost did = { λ s xs t. (t.mem.ghost_name ≡ s.mem.ghost_name) × (t.owners.now ≡ s.owners.now) × (t.mode ≡ s.mode)
        × (kept_bytes t.mode t.owners.now t.mem.now ≡ kept_bytes s.mode s.owners.now s.mem.now) × (length t.mem.now ≡ length s.mem.now)
        × (first_stray t ≡ stray_after_all s.owners.now (first_stray s) xs) };

    ghost did_none = { λ a. (refl, refl, refl, refl, refl, refl) };

    ghost did_more = { λ a b c xs ys p q. (
      q.0 ∙ p.0,
      q.1 ∙ p.1,
      q.2 ∙ p.2,
      q.3 ∙ p.3,
      q.4 ∙ p.4,
      stray_after_on a.owners.now b.owners.now (first_stray a) (first_stray b) (first_stray c) xs ys p.1 p.5 q.5,
    ) };

    #[inline]
    #[tactic(auto, using(crate::proofs::Accesses::accesses))]
    fn fetch(&mut self, pc: u32) -> Result<u32, Access> {
        let access = Access {
            pc,
            addr: pc,
            len: 4,
            kind: AccessKind::Fetch,
        };
        if self.allows_fetch(access) {
            Ok(self.mem.get(pc, 4))
        } else {
            Err(access)
        }
    }

    #[inline]
    #[tactic(auto, using(crate::proofs::Accesses::accesses))]
    fn instr(&mut self, pc: u32) -> Result<Option<Instr>, Access> {
        let access = Access {
            pc,
            addr: pc,
            len: 4,
            kind: AccessKind::Fetch,
        };
        if !self.allows_fetch(access) {
            return Err(access);
        }
        Ok(self.mem.instr(pc))
    }

    #[inline]
    #[tactic(auto, using(crate::proofs::Accesses::accesses))]
    fn load(&mut self, pc: u32, addr: u32, len: u32) -> Result<u32, Access> {
        let access = Access {
            pc,
            addr,
            len,
            kind: AccessKind::Load,
        };
        if self.allows(access, false) {
            Ok(self.mem.get(addr, len))
        } else {
            Err(access)
        }
    }

    #[inline]
    #[tactic(auto, using(crate::proofs::Accesses::accesses))]
    fn store(&mut self, pc: u32, addr: u32, len: u32, value: u32) -> Result<(), Access> {
        let access = Access {
            pc,
            addr,
            len,
            kind: AccessKind::Store,
        };
        if self.allows(access, true) {
            self.mem.set(addr, len, value);
            Ok(())
        } else {
            Err(access)
        }
    }
}
