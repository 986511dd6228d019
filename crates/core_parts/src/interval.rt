//! Intervals of own addresses, one in front of the others.

ghost use Rattle.std.specs.Prelude.{◌≡◌, ◌+◌, ◌^◌, ◌<◌, ◌≤◌, OnOk, length};
ghost use Rattle.core_world.specs.Segments.{goes_on, joined};
ghost use Rattle.core_world.proofs.Intervals.{total};
ghost use Rattle.core_parts.specs.Code.{interval_value, lowest_first};

use std::alloc::AllocError;

/// Addresses one behind the other, all of which are own and may be written, or all of which are own and may not.
#[derive(Clone, Copy)]
pub struct Interval {
    /// The first address.
    pub addr: u32,
    pub len: u32,
    pub write: bool,
}

/// Whether the second one begins where the first one ends, and is of the same kind.
fn goes_on(lower: Interval, higher: Interval) -> bool
    requires { lower.addr + lower.len < 2 ^ 32 }
    ensures { result ≡ goes_on (interval_value lower) (interval_value higher) }
{
    lower.addr + lower.len == higher.addr && lower.write == higher.write
}

/// Puts an interval in front of those above it, of which the last one is the lowest.
pub fn add_below(above: &mut Vec<Interval>, lower: Interval) -> Result<(), AllocError>
    requires end { lower.addr + lower.len < 2 ^ 32 }
    requires fits { lower.len + total (lowest_first above.old.items) < 2 ^ 32 }
    ensures joined { OnOk result (lowest_first above.new.items ≡ joined (interval_value lower) (lowest_first above.old.items)) }
    ensures count { OnOk result (length above.new.items ≤ length above.old.items + 1) }
{
    let Some(higher) = above.pop() else {
        above.push(lower)?;
        return Ok(());
    };
    if !goes_on(lower, higher) {
        above.push(higher)?;
        above.push(lower)?;
        return Ok(());
    }
    above.push(Interval {
        len: lower.len + higher.len,
        ..lower
    })?;
    Ok(())
}
