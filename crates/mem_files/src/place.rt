//! Where a walk along the names of a path stands.

/// The name of a folder in itself.
pub const HERE: &[u8] = b".";

/// The name in a folder of the one that it stands in.
pub const ABOVE: &[u8] = b"..";

/// The node of the last name, if it is there, that name, and the folder in which it was looked up. Before the first name the
/// walk stands at the root, without a name.
#[derive(Clone, Copy)]
pub struct Place<'a> {
    pub id: Option<u32>,
    pub folder: u32,
    pub name: &'a [u8],
}
