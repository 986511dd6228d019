//! Steps over a plain bus. The words are binutils' (`as -march=rv32im_zifencei`), with its text beside
//! each; values are the ISA's, worked out by hand.

use rv32im_step::*;
use std::test::*;

const BASE: u32 = 0x8000_0000;

/// Registers at `BASE`, with x1 and x2.
fn regs_of(x1: u32, x2: u32) -> Regs {
    let mut x = [0; 32];
    x[1] = x1;
    x[2] = x2;
    Regs { pc: BASE, x }
}

/// One step of the word, which stands at `BASE` with nothing else: how it ended, the registers, and the word.
fn run(word: u32, x1: u32, x2: u32) -> (Stop, Regs, u32) {
    let mut memory = word.to_le_bytes();
    let mut regs = regs_of(x1, x2);
    let stop = step_in(&mut regs, BASE, &mut memory);
    (stop, regs, u32::from_le_bytes(memory))
}

/// Words that set x3 and go on: the word, x1, x2, and x3 then.
static SETS: [(u32, u32, u32, u32); 39] = [
    // div x3,x1,x2
    (0x0220_c1b3, 0x8000_0000, 0xffff_ffff, 0x8000_0000),
    (0x0220_c1b3, 0xffff_fff9, 2, 0xffff_fffd),
    (0x0220_c1b3, 7, 0, 0xffff_ffff),
    // divu x3,x1,x2
    (0x0220_d1b3, 0x8000_0000, 0, 0xffff_ffff),
    (0x0220_d1b3, 0xffff_fff9, 2, 0x7fff_fffc),
    // rem x3,x1,x2
    (0x0220_e1b3, 0x8000_0000, 0xffff_ffff, 0),
    (0x0220_e1b3, 0xffff_fff9, 2, 0xffff_ffff),
    (0x0220_e1b3, 7, 0xffff_fffe, 1),
    (0x0220_e1b3, 0xffff_fff9, 0, 0xffff_fff9),
    // remu x3,x1,x2
    (0x0220_f1b3, 0x8000_0001, 0, 0x8000_0001),
    (0x0220_f1b3, 0xffff_fff9, 16, 9),
    (0x0220_81b3, 0x8000_0001, 3, 0x8000_0003), // mul x3,x1,x2
    (0x0220_91b3, 0xffff_ffff, 2, 0xffff_ffff), // mulh x3,x1,x2
    (0x0220_91b3, 0x8000_0000, 0x8000_0000, 0x4000_0000), // mulh x3,x1,x2
    (0x0220_a1b3, 0xffff_ffff, 0xffff_ffff, 0xffff_ffff), // mulhsu x3,x1,x2
    (0x0220_a1b3, 2, 0xffff_ffff, 1), // mulhsu x3,x1,x2
    (0x0220_b1b3, 0xffff_ffff, 0xffff_ffff, 0xffff_fffe), // mulhu x3,x1,x2
    (0x0020_81b3, 0xffff_ffff, 2, 1), // add x3,x1,x2
    (0x4020_81b3, 1, 2, 0xffff_ffff), // sub x3,x1,x2
    (0x0020_91b3, 3, 0x21, 6), // sll x3,x1,x2
    (0x0020_a1b3, 0xffff_ffff, 1, 1), // slt x3,x1,x2
    (0x0020_b1b3, 0xffff_ffff, 1, 0), // sltu x3,x1,x2
    (0x0020_c1b3, 0b1100, 0b1010, 0b0110), // xor x3,x1,x2
    (0x0020_d1b3, 0x8000_0000, 31, 1), // srl x3,x1,x2
    (0x4020_d1b3, 0x8000_0000, 31, 0xffff_ffff), // sra x3,x1,x2
    (0x0020_e1b3, 0b1100, 0b1010, 0b1110), // or x3,x1,x2
    (0x0020_f1b3, 0b1100, 0b1010, 0b1000), // and x3,x1,x2
    (0x0020_01b3, 9, 7, 7), // add x3,x0,x2
    (0xfff0_8193, 0, 0, 0xffff_ffff), // addi x3,x1,-1
    (0xfff0_a193, 0xffff_fffe, 0, 1), // slti x3,x1,-1
    (0xfff0_b193, 0x7fff_ffff, 0, 1), // sltiu x3,x1,-1
    (0xfff0_c193, 0x0f, 0, 0xffff_fff0), // xori x3,x1,-1
    (0x0f00_e193, 0x0f, 0, 0xff), // ori x3,x1,240
    (0xff00_f193, 0x1234_567f, 0, 0x1234_5670), // andi x3,x1,-16
    (0x0040_9193, 0xf000_000f, 0, 0xf0), // slli x3,x1,4
    (0x0040_d193, 0xf000_000f, 0, 0x0f00_0000), // srli x3,x1,4
    (0x4040_d193, 0xf000_000f, 0, 0xff00_0000), // srai x3,x1,4
    (0x1234_51b7, 0, 0, 0x1234_5000), // lui x3,0x12345
    (0xffff_f197, 0, 0, 0x7fff_f000), // auipc x3,0xfffff
];

/// The first word that does something else.
fn other_set() -> Option<u32> {
    for &(word, x1, x2, x3) in &SETS {
        let mut want = regs_of(x1, x2);
        want.pc = BASE + 4;
        want.x[3] = x3;
        let (stop, regs, _) = run(word, x1, x2);
        if stop != Stop::Next || regs != want {
            return Some(word);
        }
    }
    None
}

/// Words that go on elsewhere, or behind themselves: the word, x1, x2, and pc then.
static GOES: [(u32, u32, u32, u32); 12] = [
    (0x0800_01ef, 0, 0, BASE + 0x80), // jal x3,.+0x80
    (0x0010_81e7, 0x1000, 0, 0x1000), // jalr x3,1(x1)
    (0x0000_80e7, 0x2000, 0, 0x2000), // jalr x1,0(x1)
    (0x0020_8463, 5, 5, BASE + 8), // beq x1,x2,.+8
    (0x0020_8463, 5, 6, BASE + 4), // beq x1,x2,.+8
    (0x0020_9463, 5, 6, BASE + 8), // bne x1,x2,.+8
    (0x0020_c463, 0xffff_ffff, 0, BASE + 8), // blt x1,x2,.+8
    (0x0020_d463, 0xffff_ffff, 0, BASE + 4), // bge x1,x2,.+8
    (0x0020_e463, 0xffff_ffff, 0, BASE + 4), // bltu x1,x2,.+8
    (0x0020_f463, 0xffff_ffff, 0, BASE + 8), // bgeu x1,x2,.+8
    (0x0ff0_000f, 0, 0, BASE + 4), // fence iorw,iorw
    (0x0000_100f, 0, 0, BASE + 4), // fence.i
];

fn other_way() -> Option<u32> {
    for &(word, x1, x2, pc) in &GOES {
        let (stop, regs, _) = run(word, x1, x2);
        if stop != Stop::Next || regs.pc != pc {
            return Some(word);
        }
    }
    None
}

/// x0 stays 0, and a jump by x1 reads it before x1 is written: the word, x1, and pc, x0 and x1 then.
static WRITES: [(u32, u32, u32, u32, u32); 2] = [
    (0x0010_8013, 8, BASE + 4, 0, 8), // addi x0,x1,1
    (0x0000_80e7, 0x2000, 0x2000, 0, BASE + 4), // jalr x1,0(x1)
];

fn other_write() -> Option<u32> {
    for &(word, x1, pc, x0, link) in &WRITES {
        let mut want = regs_of(link, 0);
        want.pc = pc;
        want.x[0] = x0;
        let (stop, regs, _) = run(word, x1, 0);
        if stop != Stop::Next || regs != want {
            return Some(word);
        }
    }
    None
}

#[test]
fn registers(rt: HostRuntime) {
    assert!(rt; other_set().is_none());
    assert!(rt; other_way().is_none() && other_write().is_none());
}

/// Words that stop, and change neither registers nor memory: the word, x1, and how it stops. x2 is 0x55.
static STOPS: [(u32, u32, Stop); 10] = [
    (0x0820_01ef, 0, Stop::Trap(7)), // jal x3,.+0x82
    (0x0020_81e7, BASE, Stop::Trap(7)), // jalr x3,2(x1)
    (0x0020_8363, 0x55, Stop::Trap(7)), // beq x1,x2,.+6
    (0, 0, Stop::Trap(4)), // no instruction
    (0x0010_0073, 0, Stop::Trap(5)), // ebreak
    (0x0000_0073, 0, Stop::Call), // ecall
    (0x0050_a183, BASE, LOAD_BEHIND), // lw x3,5(x1)
    (0x0050_a183, BASE - 4, LOAD_OVER_THE_END), // lw x3,5(x1)
    (0x0050_9183, 0xffff_fffa, LOAD_OVER_ALL), // lh x3,5(x1)
    (0x0020_94a3, BASE - 10, STORE_OVER_THE_START), // sh x2,9(x1)
];

const LOAD_BEHIND: Stop = Stop::Refused(Access {
    pc: BASE,
    addr: BASE + 5,
    len: 4,
    kind: AccessKind::Load,
});

const LOAD_OVER_THE_END: Stop = Stop::Refused(Access {
    pc: BASE,
    addr: BASE + 1,
    len: 4,
    kind: AccessKind::Load,
});

const LOAD_OVER_ALL: Stop = Stop::Refused(Access {
    pc: BASE,
    addr: 0xffff_ffff,
    len: 2,
    kind: AccessKind::Load,
});

const STORE_OVER_THE_START: Stop = Stop::Refused(Access {
    pc: BASE,
    addr: BASE - 1,
    len: 2,
    kind: AccessKind::Store,
});

fn other_stop() -> Option<u32> {
    for &(word, x1, want) in &STOPS {
        let (stop, regs, left) = run(word, x1, 0x55);
        if stop != want || regs != regs_of(x1, 0x55) || left != word {
            return Some(word);
        }
    }
    None
}

#[test]
fn stops(rt: HostRuntime) {
    assert!(rt; other_stop().is_none());
}

/// What x3 is after the word loaded from index 7 of these bytes.
fn loaded(word: u32) -> (Stop, u32) {
    let [b0, b1, b2, b3] = word.to_le_bytes();
    let mut memory = [b0, b1, b2, b3, 0, 0, 0, 0x82, 0x83, 0x84, 0x85, 0];
    let mut regs = regs_of(BASE + 2, 0);
    let stop = step_in(&mut regs, BASE, &mut memory);
    (stop, regs.x[3])
}

static LOADS: [(u32, u32); 5] = [
    (0x0050_8183, 0xffff_ff82), // lb x3,5(x1)
    (0x0050_9183, 0xffff_8382), // lh x3,5(x1)
    (0x0050_a183, 0x8584_8382), // lw x3,5(x1)
    (0x0050_c183, 0x82), // lbu x3,5(x1)
    (0x0050_d183, 0x8382), // lhu x3,5(x1)
];

fn other_load() -> Option<u32> {
    for &(word, want) in &LOADS {
        let (stop, x3) = loaded(word);
        if stop != Stop::Next || x3 != want {
            return Some(word);
        }
    }
    None
}

/// The bytes after the word stored x2 at index 7, of which the last eight were 0xff.
fn stored(word: u32) -> (Stop, [u8; 12]) {
    let [b0, b1, b2, b3] = word.to_le_bytes();
    let mut memory = [
        b0, b1, b2, b3, 0xff, 0xff, 0xff, 0xff, 0xff, 0xff, 0xff, 0xff,
    ];
    let mut regs = regs_of(BASE - 2, 0x1122_3344);
    let stop = step_in(&mut regs, BASE, &mut memory);
    (stop, memory)
}

static STORES: [(u32, [u8; 12]); 3] = [
    (
        0x0020_84a3,
        [
            0xa3, 0x84, 0x20, 0x00, 0xff, 0xff, 0xff, 0x44, 0xff, 0xff, 0xff, 0xff,
        ],
    ), // sb x2,9(x1)
    (
        0x0020_94a3,
        [
            0xa3, 0x94, 0x20, 0x00, 0xff, 0xff, 0xff, 0x44, 0x33, 0xff, 0xff, 0xff,
        ],
    ), // sh x2,9(x1)
    (
        0x0020_a4a3,
        [
            0xa3, 0xa4, 0x20, 0x00, 0xff, 0xff, 0xff, 0x44, 0x33, 0x22, 0x11, 0xff,
        ],
    ), // sw x2,9(x1)
];

fn other_store() -> Option<u32> {
    for &(word, want) in &STORES {
        let (stop, memory) = stored(word);
        if stop != Stop::Next || memory != want {
            return Some(word);
        }
    }
    None
}

#[test]
fn at_odd_addresses(rt: HostRuntime) {
    assert!(rt; other_load().is_none() && other_store().is_none());
}

/// A fetch of bytes that stand up to 2^32 and past it, over a bus that is made here.
#[test]
fn refuses_a_fetch_past_the_end(rt: HostRuntime) {
    let mut memory = [0; 6];
    let mut bus = ByteBus {
        base: 0xffff_fffc,
        bytes: &mut memory,
    };
    let mut regs = regs_of(0, 0);
    regs.pc = 0xffff_fffd;
    let want = Stop::Refused(Access {
        pc: 0xffff_fffd,
        addr: 0xffff_fffd,
        len: 4,
        kind: AccessKind::Fetch,
    });
    assert!(rt; step(&mut regs, &mut bus) == want);
}

#[test]
fn stores_over_the_end_of_its_word(rt: HostRuntime) {
    let mut memory = [0xa3, 0x94, 0x20, 0x00, 0xff, 0xff, 0xff, 0xff]; // sh x2,9(x1)
    let mut regs = regs_of(BASE - 5, 0x1122_3344);
    let stop = step_in(&mut regs, BASE, &mut memory);
    let is_stored = memory == [0xa3, 0x94, 0x20, 0x00, 0x44, 0x33, 0xff, 0xff];
    assert!(rt; stop == Stop::Next && regs.pc == BASE + 4 && is_stored);
}
