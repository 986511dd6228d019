//! Where a process runs.

ghost use Rattle.std.specs.Prelude.{◌≡◌, Some, slice_get};
ghost use Rattle.kept_parts.specs.Regular.{HasSpace};

use mmap_rules::Space;

/// The space of a number, which lives.
pub fn home(spaces: &[Option<Space>], number: u32) -> &Space
    requires { HasSpace spaces.now number }
    ensures { slice_get spaces.now number ≡ Some (Some result.now) }
{
    match &spaces[number as usize] {
        Some(space) => space,
        None => unreachable!(),
    }
}
