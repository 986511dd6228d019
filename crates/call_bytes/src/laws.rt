//! A law on the definitions, the contract of a function that does nothing.

ghost use Rattle.call_bytes.specs.Lists.{ReadsUpToMost};

/// The strings of an execve are too long exactly where they count more than 1,048,576 bytes: four for each pointer, and those of
/// each string with its zero.
pub fn strings_law()
    ensures { ReadsUpToMost }
{}
