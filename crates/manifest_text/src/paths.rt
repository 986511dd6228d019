//! Paths of programs, files and folders.

ghost use Rattle.std.specs.Prelude.{◌≡◌};
ghost use Rattle.std.specs.List.{list_all};
ghost use Rattle.manifest_text.specs.Pieces.{pieces};
ghost use Rattle.manifest_text.specs.Paths.{slash, is_name, is_path};

/// The most bytes of a path.
const LONGEST_PATH: usize = 4095;

/// The most bytes of a name in it.
const LONGEST_NAME: usize = 255;

/// A slash, and names with a slash between them.
#[tactic(auto, unfolding(crate::specs::Paths::is_path))]
pub fn is_path(text: &[u8]) -> bool
    ensures { result ≡ is_path text.now }
{
    match text {
        [b'/', names @ ..] => text.len() <= LONGEST_PATH && are_names(names),
        _ => false,
    }
}

/// Whether all that stands between slashes is a name.
fn are_names(names: &[u8]) -> bool
    ensures { result ≡ list_all is_name (pieces slash names.now) }
{
    let mut start = 0;
    for (place, byte) in names.iter().enumerate() {
        if *byte == b'/' {
            if !is_name(&names[start..place]) {
                return false;
            }
            start = place + 1;
        }
    }
    is_name(&names[start..])
}

#[tactic(auto, unfolding(crate::specs::Paths::is_name))]
fn is_name(name: &[u8]) -> bool
    ensures { result ≡ is_name name.now }
{
    !name.is_empty() && name.len() <= LONGEST_NAME && !matches!(name, b"." | b"..")
}
