//! What a system call does that touches neither files nor memory (Linux, include/uapi/asm-generic/unistd.h, in this project's
//! profile).

ghost use Rattle.std.specs.Prelude.{◌≡◌, false};
ghost use Rattle.machine_world.specs.Asks.{Ask, arg, answers, replies};
ghost use Rattle.machine_world.specs.Descriptors.{ioctl_row};
ghost use Rattle.machine_world.specs.Rows.{asks_pid, row};
ghost use Rattle.file_calls.specs.Calls.{MadeBy, is_change, is_output};
ghost use Rattle.kept_parts.specs.Calls.{reply_of};
ghost use Rattle.kept_parts.specs.MapsIn.{is_mapping};

use call_log::{Errno, numbers};
use fd_tables::Files;
use file_calls::Call;
use kept_parts::Effect;

/// What ioctl is refused with: no descriptor that is open is a terminal.
fn ioctl_reply(files: &Files, table: u32, fd: u32) -> u32
    ensures { (a : Ask) → a.process.table ≡ table → arg a 0 ≡ fd → a.rest.files ≡ files.now.open_files → ioctl_row a ≡ answers a result }
{
    match files.view(table, fd) {
        Ok(_) => Errno::Enotty.refusal(),
        Err(errno) => errno.refusal(),
    }
}

/// set_tid_address, getpid and gettid.
fn asks_pid(number: u32) -> bool
    ensures { result ≡ asks_pid number }
{
    number == numbers::SET_TID_ADDRESS || number == numbers::GETPID || number == numbers::GETTID
}

/// What a call does that is neither a call on files, but for ioctl, nor one that maps or unmaps.
pub fn effect_of(call: &Call, files: &Files) -> Effect
    requires change { is_change call.now.number ≡ false }
    requires output { is_output call.now.number ≡ false }
    requires mapping { is_mapping call.now.number ≡ false }
    ensures { (a : Ask) → MadeBy call.now a → a.rest.files ≡ files.now.open_files → row a ≡ replies (reply_of a result) }
{
    match call.number {
        numbers::IOCTL => Effect::Answer(ioctl_reply(files, call.table, call.args[0])),
        numbers::SCHED_YIELD => Effect::Yield,
        numbers::GETPPID => Effect::Answer(call.parent),
        numbers::BRK => Effect::Break(call.args[0]),
        number if asks_pid(number) => Effect::Answer(call.pid),
        _ => Effect::Answer(Errno::Enosys.refusal()),
    }
}
