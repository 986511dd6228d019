//! The law of the format, the contract of a function that does nothing.

ghost use Rattle.core_file.specs.Laws.{TextTells};

/// A core file tells its parts: equal files are of equal signals, pids, registers (but x0) and segments.
pub fn text_tells()
    ensures { TextTells }
{}
