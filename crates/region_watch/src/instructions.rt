//! Instructions of one program, one after the other.

ghost use Rattle.std.specs.Prelude.{◌≡◌, ◌-◌, ◌≤◌};
ghost use Rattle.rv32im_step.specs.Parts.{registers};
ghost use Rattle.region_watch.specs.Watched.{KeepsWatch, StepsLeave};

use crate::watch::Watch;
use rv32im_step::{RegisterFile, Regs, Stop, step_at};

/// How far a program came.
#[derive(Clone, Copy, PartialEq, Eq)]
pub struct Progress {
    /// How many instructions were carried out.
    pub done: u32,
    /// How the last step ended: `Next` where all were carried out.
    pub stop: Stop,
}

/// How many of `count` instructions were carried out where so many are left. It stands apart, so that the loop keeps the one number
/// that it counts down.
#[inline(never)]
fn carried_out(count: u32, left: u32) -> u32
    requires { left ≤ count }
    ensures { result ≡ count - left }
{
    count - left
}

/// How far a program came that stands at a call.
#[inline(never)]
fn at_call(count: u32, left: u32) -> Progress
    requires { left ≤ count }
    ensures done { result.done ≡ count - left }
    ensures stop { result.stop ≡ Stop.Call }
{
    Progress {
        done: count - left,
        stop: Stop::Call,
    }
}

/// How far a program came that gets a signal.
#[inline(never)]
fn at_trap(count: u32, left: u32, signal: u32) -> Progress
    requires { left ≤ count }
    ensures done { result.done ≡ count - left }
    ensures stop { result.stop ≡ Stop.Trap signal }
{
    Progress {
        done: count - left,
        stop: Stop::Trap(signal),
    }
}

/// `run_steps` of registers that are taken apart, so that pc is a number by itself.
#[inline]
fn steps_at(pc: &mut u32, x: &mut RegisterFile, watch: &mut Watch<'_>, count: u32) -> Progress
    ensures leaves { StepsLeave count (registers pc.old x.old) watch.old result (registers pc.new x.new) watch.new }
    ensures keeps { KeepsWatch watch.old watch.new }
{
    let mut left = count;
    while left > 0 {
        let stop = step_at(pc, x, watch);
        match stop {
            Stop::Next => left -= 1,
            Stop::Call => return at_call(count, left),
            Stop::Trap(signal) => return at_trap(count, left, signal),
            Stop::Refused(access) => {
                return Progress {
                    done: carried_out(count, left),
                    stop: Stop::Refused(access),
                };
            }
        }
    }
    Progress {
        done: count,
        stop: Stop::Next,
    }
}

/// Carries out up to `count` instructions, and stops at the first that isn't carried out. The loop has a watch of its own, whose fields
/// stay in registers, and a first instruction, so that pc has one register.
#[inline(never)]
pub fn run_steps(regs: &mut Regs, watch: &mut Watch<'_>, count: u32) -> Progress
    ensures leaves { StepsLeave count regs.old watch.old result regs.new watch.new }
    ensures keeps { KeepsWatch watch.old watch.new }
{
    if count == 0 {
        return Progress {
            done: 0,
            stop: Stop::Next,
        };
    }
    let mut pc = regs.pc;
    let mut x = RegisterFile::of(&regs.x);
    let mut own = Watch {
        mem: &mut *watch.mem,
        owners: watch.owners,
        mode: watch.mode,
        from: watch.from,
        reach: watch.reach,
        second_from: watch.second_from,
        second_reach: watch.second_reach,
        first: watch.first,
    };
    let progress = steps_at(&mut pc, &mut x, &mut own, count);
    watch.first = own.first;
    *regs = Regs { pc, x: x.array() };
    progress
}
