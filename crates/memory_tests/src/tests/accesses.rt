//! One program's accesses to two pages. It owns the first from byte 64 on, and may only read the second.

ghost use Rattle.std.specs.Prelude.{◌≡◌, ◌*◌, true, IfOk, length};
ghost use Rattle.mmap_rules.specs.Owners.{owns};
ghost use Rattle.mmap_rules.specs.Space.{may_use};

use mmap_rules::{Owners, PageOwner};
use phys_mem::{BASE, PhysMem};
use region_watch::{Mode, Progress, Watch, Window, run_steps};
use rv32im_step::{Access, AccessKind, Bus, Regs, Stop};
use std::alloc::{AllocError, Global};
use std::test::*;

/// The address of the code.
const CODE: u32 = BASE + 0x80;

/// `li a0, 122`, `addi a1, sp, 96`, `sb a0, 0(a1)`, `j .`.
static STORING: [u8; 16] = [
    0x13, 5, 0xa0, 7, 0x93, 5, 1, 6, 0x23, 0x80, 0xa5, 0, 0x6f, 0, 0, 0,
];

/// Two pages with this code.
fn memory_with(alloc: Global, code: &[u8]) -> Result<PhysMem, AllocError>
    ensures { IfOk result (λ m. length m ≡ 4096 * 2) }
{
    let mut mem = PhysMem::new(alloc, 2)?;
    if code.len() <= 64 && mem.holds(CODE, code.len() as u32) {
        mem.copy_in(CODE, code);
    }
    Ok(mem)
}

static PAGES: [PageOwner; 2] = [
    PageOwner {
        from: 64,
        write: true,
        uses: 1,
    },
    PageOwner {
        from: 0,
        write: false,
        uses: 1,
    },
];

fn table(alloc: Global) -> Result<Owners, AllocError>
    ensures { IfOk result (λ o. length o ≡ 2) }
{
    Ok(Owners::of(Vec::from_array(alloc, PAGES)?))
}

/// The block's own bytes from byte 64 on, or no window where they aren't all own.
#[tactic(auto, unfolding(mmap_rules::specs::Space::may_use))]
fn window(owners: &Owners, size: u32) -> Window
    ensures { may_use (owns owners.now true) result.from result.size ≡ true }
{
    if owners.own(BASE + 64, size, true) {
        Window {
            from: BASE + 64,
            size,
        }
    } else {
        Window { from: 0, size: 0 }
    }
}

/// An address and a length: whether a load is own, whether a store is, and whether it lies in memory.
static ACCESSES: [(u32, u32, bool, bool, bool); 13] = [
    (BASE - 1, 1, false, false, false),
    (BASE, 4, false, false, true),
    (BASE + 63, 1, false, false, true),
    (BASE + 62, 4, false, false, true),
    (BASE + 64, 4, true, true, true),
    (BASE + 0xffd, 2, true, true, true),
    (BASE + 0xffe, 4, true, false, true),
    (BASE + 0x1000, 1, true, false, true),
    (BASE + 0x1ffc, 4, true, false, true),
    (BASE + 0x1ffd, 4, false, false, false),
    (BASE + 0x2000, 1, false, false, false),
    (0x7fff_fffe, 4, false, false, false),
    (0xffff_fffe, 4, false, false, false),
];

/// Loads and stores: the first address at which one is answered otherwise. A run that goes on has all within memory
/// carried out.
fn other_access(watch: &mut Watch<'_>, mode: Mode) -> Option<u32> {
    for &(addr, len, load, store, within) in &ACCESSES {
        let want = match mode {
            Mode::Halt => (load, store),
            Mode::GoOn => (within, within),
        };
        if len == 1 || len == 2 || len == 4 {
            let loads = watch.load(0, addr, len).is_ok();
            let stores = watch.store(0, addr, len, 0x5555_5555).is_ok();
            if loads != want.0 || stores != want.1 {
                return Some(addr);
            }
        }
    }
    None
}

/// The same over memory and a table of their own, with a window of so many bytes.
fn other_access_in(alloc: Global, mode: Mode, size: u32) -> Result<Option<u32>, AllocError> {
    let owners = table(alloc)?;
    let mut mem = memory_with(alloc, &STORING)?;
    let mut watch = Watch::with_window(&mut mem, &owners, mode, window(&owners, size));
    Ok(other_access(&mut watch, mode))
}

/// Modes, and windows of so many bytes.
static WINDOWS: [(Mode, u32); 4] = [
    (Mode::Halt, 0),
    (Mode::Halt, 4032),
    (Mode::GoOn, 0),
    (Mode::GoOn, 4032),
];

/// The window changes no answer.
#[test]
fn accesses(rt: HostRuntime) -> Result<(), Fail> {
    for &(mode, size) in &WINDOWS {
        let other = other_access_in(rt.alloc(), mode, size)?;
        assert!(rt; other.is_none(), "{other:?}");
    }
    Ok(())
}

/// What a call asks for.
#[derive(Clone, Copy)]
enum Asked {
    Reads,
    Writes,
}

/// The range of a call: its instruction, its address and its length.
type Place = (u32, u32, u32);

fn access_of(place: Place) -> Access {
    let (pc, addr, len) = place;
    Access {
        pc,
        addr,
        len,
        kind: AccessKind::Call,
    }
}

/// Ranges of calls, whether each is let through, and the first that strayed by then.
type Range = (Asked, Place, bool, Option<Place>);

static HALTED: [Range; 7] = [
    (Asked::Reads, (0, 0, 0), true, None),
    (Asked::Writes, (0, 0, 0), true, None),
    (Asked::Reads, (0, BASE + 64, 4032), true, None),
    (Asked::Writes, (0, BASE + 64, 4032), true, None),
    (Asked::Reads, (8, BASE + 64, 8128), true, None),
    (
        Asked::Writes,
        (8, BASE + 64, 4033),
        false,
        Some((8, BASE + 64, 4033)),
    ),
    (
        Asked::Reads,
        (12, BASE + 64, 8129),
        false,
        Some((8, BASE + 64, 4033)),
    ),
];

const FIRST: Option<Place> = Some((8, BASE + 64, 4033));

/// The same in a run that goes on: what lies in memory isn't refused, but told all the same.
static WENT_ON: [Range; 16] = [
    (Asked::Reads, (0, 0, 0), true, None),
    (Asked::Writes, (0, 0, 0), true, None),
    (Asked::Reads, (0, BASE + 64, 4032), true, None),
    (Asked::Writes, (0, BASE + 64, 4032), true, None),
    (Asked::Reads, (0, BASE + 64, 8128), true, None),
    (Asked::Writes, (8, BASE + 64, 4033), true, FIRST),
    (Asked::Reads, (12, BASE, 8192), true, FIRST),
    (Asked::Writes, (12, BASE, 8192), true, FIRST),
    (Asked::Reads, (16, BASE, 8193), false, FIRST),
    (Asked::Writes, (16, BASE, 8193), false, FIRST),
    (Asked::Reads, (16, BASE - 1, 2), false, FIRST),
    (Asked::Writes, (16, BASE - 1, 2), false, FIRST),
    (Asked::Reads, (16, 0, u32::MAX), false, FIRST),
    (Asked::Writes, (16, 0, u32::MAX), false, FIRST),
    (Asked::Reads, (16, u32::MAX, 2), false, FIRST),
    (Asked::Writes, (16, u32::MAX, 2), false, FIRST),
];

/// The first range that is answered otherwise.
fn other_range(watch: &mut Watch<'_>, rows: &[Range]) -> Option<Place> {
    for (asked, place, passes, first) in rows {
        let (pc, addr, len) = *place;
        let given = match asked {
            Asked::Reads => watch.reads(pc, addr, len),
            Asked::Writes => watch.writes(pc, addr, len),
        };
        let want = if *passes {
            Ok(())
        } else {
            Err(access_of(*place))
        };
        if given != want || watch.first() != first.map(access_of) {
            return Some(*place);
        }
    }
    None
}

/// The same over memory and a table of their own.
fn other_range_in(alloc: Global, mode: Mode, rows: &[Range]) -> Result<Option<Place>, AllocError> {
    let owners = table(alloc)?;
    let mut mem = memory_with(alloc, &STORING)?;
    let mut watch = Watch::new(&mut mem, &owners, mode);
    Ok(other_range(&mut watch, rows))
}

#[test]
fn ranges(rt: HostRuntime) -> Result<(), Fail> {
    let halted = other_range_in(rt.alloc(), Mode::Halt, &HALTED)?;
    let went_on = other_range_in(rt.alloc(), Mode::GoOn, &WENT_ON)?;
    assert!(rt; halted.is_none() && went_on.is_none());
    Ok(())
}

/// A store or a load of a value by an instruction, at an address, of one byte or four; whether it is carried out, and whether an access
/// has strayed by then.
static GOING_ON: [(bool, u32, u32, u32, u32, bool, bool); 6] = [
    (true, 0x0102_0304, 8, BASE + 0xffc, 4, true, false),
    (false, 0, 12, BASE + 0x1000, 4, true, false),
    (true, 0x0506_0708, 16, BASE + 0xffd, 4, true, true),
    (false, 0, 20, BASE + 60, 1, true, true),
    (true, 0, 24, BASE + 0x2000, 1, false, true),
    (false, 0x0506_0708, 28, BASE + 0xffd, 4, true, true),
];

const STRAY: Access = Access {
    pc: 16,
    addr: BASE + 0xffd,
    len: 4,
    kind: AccessKind::Store,
};

/// The first instruction of a run that goes on that is answered otherwise. An own access isn't told as the first stray
/// one, and a later one doesn't replace it.
fn other_going_on(watch: &mut Watch<'_>) -> Option<u32> {
    for &(stores, value, pc, addr, len, done, strayed) in &GOING_ON {
        if len == 1 || len == 4 {
            let given = if stores {
                watch.store(pc, addr, len, value).is_ok().then_some(value)
            } else {
                watch.load(pc, addr, len).ok()
            };
            if given != done.then_some(value) || watch.first() != strayed.then_some(STRAY) {
                return Some(pc);
            }
        }
    }
    None
}

/// The same over memory and a table of their own, and whether the second page is written then.
fn other_going_on_in(alloc: Global) -> Result<(Option<u32>, bool), AllocError> {
    let owners = table(alloc)?;
    let mut mem = memory_with(alloc, &STORING)?;
    let other = {
        let mut watch = Watch::with_window(&mut mem, &owners, Mode::GoOn, window(&owners, 4032));
        other_going_on(&mut watch)
    };
    let is_written = mem.holds(BASE + 0x1000, 1) && mem.get8(BASE + 0x1000) == 5;
    Ok((other, is_written))
}

#[test]
fn first_on(rt: HostRuntime) -> Result<(), Fail> {
    let (other, is_written) = other_going_on_in(rt.alloc())?;
    assert!(rt; other.is_none() && is_written, "{other:?}");
    Ok(())
}

/// How a run ended: what was done and why it stopped, the first stray access, pc, and the byte that the code stores where that lies in
/// memory.
type Ran = (Progress, Option<Access>, u32, Option<u8>);

/// Up to so many instructions of the code, with sp as it is given.
fn run(alloc: Global, mode: Mode, sp: u32, count: u32) -> Result<Ran, AllocError> {
    let owners = table(alloc)?;
    let mut mem = memory_with(alloc, &STORING)?;
    let mut x = [0; 32];
    x[2] = sp;
    let mut regs = Regs { pc: CODE, x };
    let mut watch = Watch::with_window(&mut mem, &owners, mode, window(&owners, 4032));
    let progress = run_steps(&mut regs, &mut watch, count);
    let first = watch.first();
    let byte = if mem.holds(sp, 97) {
        Some(mem.get8(sp + 96))
    } else {
        None
    };
    Ok((progress, first, regs.pc, byte))
}

/// The store of the code, one byte behind the block, and one byte behind memory.
const BEHIND: Access = Access {
    pc: CODE + 8,
    addr: BASE + 0x1000,
    len: 1,
    kind: AccessKind::Store,
};

const OUTSIDE: Access = Access {
    pc: CODE + 8,
    addr: BASE + 0x2000,
    len: 1,
    kind: AccessKind::Store,
};

/// Modes, sp and instructions that may be carried out; what is done, why it stops, the first stray access, pc, and the byte. A store
/// into the block, one behind it, which a run that goes on carries out and tells, and one behind memory.
static RUNS: [(Mode, u32, u32, u32, Stop, Option<Access>, u32, Option<u8>); 11] = [
    (
        Mode::Halt,
        BASE + 0xf9f,
        0,
        0,
        Stop::Next,
        None,
        CODE,
        Some(0),
    ),
    (
        Mode::Halt,
        BASE + 0xf9f,
        3,
        3,
        Stop::Next,
        None,
        CODE + 12,
        Some(0x7a),
    ),
    (
        Mode::Halt,
        BASE + 0xf9f,
        5,
        5,
        Stop::Next,
        None,
        CODE + 12,
        Some(0x7a),
    ),
    (
        Mode::Halt,
        BASE + 0xfa0,
        2,
        2,
        Stop::Next,
        None,
        CODE + 8,
        Some(0),
    ),
    (
        Mode::GoOn,
        BASE + 0xf9f,
        0,
        0,
        Stop::Next,
        None,
        CODE,
        Some(0),
    ),
    (
        Mode::GoOn,
        BASE + 0xf9f,
        3,
        3,
        Stop::Next,
        None,
        CODE + 12,
        Some(0x7a),
    ),
    (
        Mode::GoOn,
        BASE + 0xf9f,
        5,
        5,
        Stop::Next,
        None,
        CODE + 12,
        Some(0x7a),
    ),
    (
        Mode::GoOn,
        BASE + 0xfa0,
        2,
        2,
        Stop::Next,
        None,
        CODE + 8,
        Some(0),
    ),
    (
        Mode::Halt,
        BASE + 0xfa0,
        5,
        2,
        Stop::Refused(BEHIND),
        Some(BEHIND),
        CODE + 8,
        Some(0),
    ),
    (
        Mode::GoOn,
        BASE + 0xfa0,
        5,
        5,
        Stop::Next,
        Some(BEHIND),
        CODE + 12,
        Some(0x7a),
    ),
    (
        Mode::GoOn,
        BASE + 0x1fa0,
        5,
        2,
        Stop::Refused(OUTSIDE),
        Some(OUTSIDE),
        CODE + 8,
        None,
    ),
];

#[test]
fn runs(rt: HostRuntime) -> Result<(), Fail> {
    for &(mode, sp, count, done, stop, first, pc, byte) in &RUNS {
        let ran = run(rt.alloc(), mode, sp, count)?;
        assert!(rt;
            ran == (Progress { done, stop }, first, pc, byte),
            "{sp} {count}"
        );
    }
    Ok(())
}

/// `addi a0, a0, 1`, this store, and both again: `addi a5, a5, -1`, `bne a5, zero, -12`, `ecall`.
fn changing(store: u32) -> [u8; 20] {
    let [s0, s1, s2, s3] = store.to_le_bytes();
    [
        0x13, 5, 0x15, 0, s0, s1, s2, s3, 0x93, 0x87, 0xf7, 0xff, 0xe3, 0x9a, 7, 0xfe, 0x73, 0, 0,
        0,
    ]
}

/// Two instructions of the code are carried out twice, with this store of a value at an address: how many were, why it stops, and a0
/// and a1.
fn changes(
    alloc: Global,
    store: u32,
    value: u32,
    at: u32,
) -> Result<(u32, Stop, u32, u32), AllocError> {
    let owners = table(alloc)?;
    let mut mem = memory_with(alloc, &changing(store))?;
    let mut x = [0; 32];
    x[13] = value;
    x[14] = at;
    x[15] = 2;
    let mut regs = Regs { pc: CODE, x };
    let mut watch = Watch::with_window(&mut mem, &owners, Mode::Halt, window(&owners, 4032));
    let progress = run_steps(&mut regs, &mut watch, 100);
    Ok((progress.done, progress.stop, regs.x[10], regs.x[11]))
}

/// By SW, SH and SB, and by an SW over the end of the instruction's word or its beginning: a store, its value and address, and what a0
/// and a1 are then.
static CHANGED: [(u32, u32, u32, u32, u32); 5] = [
    (0x00d7_2023, 0x0105_0513, CODE, 17, 0),
    (0x00d7_1023, 0x0105, CODE + 2, 17, 0),
    (0x00d7_0023, 1, CODE + 3, 18, 0),
    (0x00d7_2023, 0x2023_0105, CODE + 2, 17, 0),
    (0x00d7_2023, 0x0593_0000, CODE - 2, 1, 2),
];

/// A program changes an instruction that it has carried out, in one turn.
#[test]
fn changed_code(rt: HostRuntime) -> Result<(), Fail> {
    for &(store, value, at, a0, a1) in &CHANGED {
        let given = changes(rt.alloc(), store, value, at)?;
        assert!(rt; given == (8, Stop::Call, a0, a1), "{store}");
    }
    Ok(())
}
