//! Laws on the definitions, each the contract of a function that does nothing.

ghost use Rattle.call_log.specs.Errno.{RefusalsAreWords};

/// The reply of a refused call is a word from 0xfffff001 on, and so is not 0.
pub fn refusals_are_words()
    ensures { RefusalsAreWords }
{}
