//! Flags of system calls.

ghost use Rattle.std.specs.Prelude.{◌≡◌, ◌<◌};
ghost use Rattle.call_log.specs.Flags.{has_flag};

/// Whether the flag of one bit that has this value is among the flags of a call.
#[inline]
pub fn has_flag(flags: u32, value: u32) -> bool
    requires { 0 < value }
    ensures { result ≡ has_flag flags value }
{
    (flags / value) % 2 == 1
}
