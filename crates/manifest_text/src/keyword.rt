//! What a line can be about.

/// What a line is about.
#[derive(Clone, Copy, PartialEq, Eq)]
pub(crate) enum Keyword {
    Memory,
    Elf,
    Flat,
    File,
    Dir,
    Stdin,
    Root,
    Start,
    Quanta,
    Repeat,
    Dump,
    Watch,
}
