//! Lists of strings.

/// The arguments and the environment of a program.
#[derive(Drop)]
pub struct ProgramStrings {
    pub args: Vec<Vec<u8>>,
    pub env: Vec<Vec<u8>>,
}

/// The strings of a list, and what was read behind it.
#[derive(Drop)]
pub(crate) struct StringList<'a> {
    pub(crate) strings: Vec<Vec<u8>>,
    pub(crate) behind: &'a [u8],
}
