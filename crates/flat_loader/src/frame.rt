//! The start frame: System V ABI, "Process Initialization", with the RISC-V calling convention's stack
//! alignment. It holds argc, the pointers to the arguments, 0, the pointers to the environment, 0, and the
//! strings with their zeros.

ghost use Rattle.std.specs.Prelude.{◌≡◌, ◌+◌, ◌-◌, ◌*◌, ◌^◌, ◌<◌, ◌≤◌, [], ◌∷◌, ◌++◌, length, min, true, flat_map};
ghost use Rattle.byteorder.specs.Endian.{little_bytes};
ghost use Rattle.byte_words.specs.Patches.{laid};
ghost use Rattle.phys_mem.specs.Memory.{Within, place as place_of};
ghost use Rattle.flat_loader.specs.Original.{flat_original};
ghost use Rattle.flat_loader.specs.Frame.{texts, strings as strings_text, pointers, words_len};
ghost use Rattle.flat_loader.specs.Frame as definition;

use crate::block::{block_len, stack_len};
use bflt_format::Flat;
use phys_mem::PhysMem;

/// The bytes of strings with their zeros and of the pointers to them, and 2^64 - 1 for more than these.
fn len_with_pointers(strings: &[Vec<u8>]) -> u64
    ensures { result ≡ min (4 * length strings.now + length (strings_text (texts strings.now))) (2 ^ 64 - 1) }
{
    let mut len = 0u64;
    for string in strings {
        len = len.saturating_add(string.len() as u64).saturating_add(5);
    }
    len
}

/// The bytes of the start frame, and 2^64 - 1 for more than these.
#[tactic(auto, unfolding(crate::specs::Frame::frame_len))]
pub fn frame_len(args: &[Vec<u8>], env: &[Vec<u8>]) -> u64
    ensures { result ≡ min (definition.frame_len (texts args.now) (texts env.now)) (2 ^ 64 - 1) }
{
    len_with_pointers(args)
        .saturating_add(len_with_pointers(env))
        .saturating_add(12)
}

/// Where a frame of `len` bytes begins: the greatest multiple of 16 from which it ends at or below `end`.
#[tactic(auto, unfolding(crate::specs::Frame::frame_start))]
pub fn frame_start(end: u32, len: u32) -> u32
    requires { len ≤ end }
    ensures value { result ≡ definition.frame_start end len }
    ensures inside { result + len ≤ end }
{
    (end - len) / 16 * 16
}

/// Whether the start frame of these strings lies in the program's stack.
#[tactic(auto, unfolding(crate::specs::Frame::frame_fits))]
pub fn frame_fits(flat: &Flat, args: &[Vec<u8>], env: &[Vec<u8>]) -> bool
    ensures { result ≡ definition.frame_fits (flat_original flat.now) (texts args.now) (texts env.now) }
{
    let block = block_len(flat);
    let len = frame_len(args, env);
    len <= u64::from(block) && block <= frame_start(block, len as u32) + stack_len(flat)
}

/// Writes where each string stands, of those from `place` on, and a zero. Gives the address behind the strings.
fn write_pointers(mem: &mut PhysMem, mut at: u32, mut place: u32, strings: &[Vec<u8>]) -> u32
    requires words { Within mem.old at (4 * length strings.now + 4) }
    requires memory { length mem.old ≤ 2 ^ 26 }
    requires strings { place + length (strings_text (texts strings.now)) < 2 ^ 32 }
    ensures mem { mem.new ≡ laid mem.old (place_of at) (flat_map (little_bytes 4) (pointers place (texts strings.now) ++ 0 ∷ [])) }
    ensures length { length mem.new ≡ length mem.old }
    ensures behind { result ≡ place + length (strings_text (texts strings.now)) }
{
    for string in strings {
        mem.set32(at, place);
        at += 4;
        place += string.len() as u32 + 1;
    }
    mem.set32(at, 0);
    place
}

/// Writes strings, each with a zero behind it. Gives the address behind them.
fn write_strings(mem: &mut PhysMem, mut at: u32, strings: &[Vec<u8>]) -> u32
    requires within { Within mem.old at (length (strings_text (texts strings.now))) }
    requires memory { length mem.old ≤ 2 ^ 26 }
    ensures mem { mem.new ≡ laid mem.old (place_of at) (strings_text (texts strings.now)) }
    ensures length { length mem.new ≡ length mem.old }
    ensures behind { result ≡ at + length (strings_text (texts strings.now)) }
{
    for string in strings {
        mem.copy_in(at, string);
        at += string.len() as u32;
        mem.set8(at, 0);
        at += 1;
    }
    at
}

/// Writes the start frame from `sp` on.
#[tactic(auto, unfolding(crate::specs::Frame::frame, crate::specs::Frame::frame_len))]
pub fn write_frame(mem: &mut PhysMem, sp: u32, args: &[Vec<u8>], env: &[Vec<u8>])
    requires within { Within mem.old sp (definition.frame_len (texts args.now) (texts env.now)) }
    requires memory { length mem.old ≤ 2 ^ 26 }
    ensures length { length mem.new ≡ length mem.old }
    ensures mem { mem.new ≡ laid mem.old (place_of sp) (definition.frame sp (texts args.now) (texts env.now)) }
{
    let argc = args.len() as u32;
    let argv = sp + 4;
    let envp = argv + 4 * argc + 4;
    let strings = envp + 4 * env.len() as u32 + 4;
    mem.set32(sp, argc);
    let env_strings = write_pointers(mem, argv, strings, args);
    write_pointers(mem, envp, env_strings, env);
    write_strings(mem, strings, args);
    write_strings(mem, env_strings, env);
}
