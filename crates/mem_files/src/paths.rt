//! The names of a path.

ghost use Rattle.std.specs.Prelude.{◌≡◌, ◌≢◌, ℕ, ◌<◌, ◌≤◌, ◌∷◌, [], length, take, drop, slice_index, MatchOption, nat_lt};
ghost use Rattle.std.specs.List.{list_any};
ghost use Rattle.mem_files.specs.Paths.{names, is_too_long, longest_name, slash};

/// The most bytes of a path.
const LONGEST_PATH: usize = 4095;

/// The most bytes of a name.
const LONGEST_NAME: usize = 255;

/// Whether a path has more than 4,095 bytes, or a name of more than 255.
#[tactic(auto, unfolding(crate::specs::Paths::is_too_long))]
pub fn is_too_long(path: &[u8]) -> bool
    ensures { result ≡ is_too_long path.now }
{
    path.len() > LONGEST_PATH || has_long_name(path)
}

/// Whether a name of the path has more than 255 bytes.
fn has_long_name(path: &[u8]) -> bool
    ensures { result ≡ list_any (λ name. nat_lt longest_name (length name)) (names path.now) }
{
    let mut rest = path;
    while let Some((name, more)) = next_name(rest) {
        if name.len() > LONGEST_NAME {
            return true;
        }
        rest = more;
    }
    false
}

/// The first name of what is left of a path, and what stands behind it.
pub fn next_name(path: &[u8]) -> Option<(&[u8], &[u8])>
    ensures { MatchOption result (names path.now ≡ []) (λ p. (names path.now ≡ p.0.now ∷ names p.1.now) × (length p.1.now < length path.now)) }
{
    let path = skip_slashes(path);
    if path.is_empty() {
        return None;
    }
    Some(path.split_at(name_len(path)))
}

/// What is left behind the slashes at the front.
fn skip_slashes(path: &[u8]) -> &[u8]
    ensures names { names result.now ≡ names path.now }
    ensures len { length result.now ≤ length path.now }
    ensures first { 0 < length result.now → slice_index result.now 0 ≢ slash }
{
    for (i, byte) in path.iter().enumerate() {
        if *byte != b'/' {
            return &path[i..];
        }
    }
    &[]
}

/// How many bytes stand before the first slash, or in all.
fn name_len(path: &[u8]) -> usize
    ensures within { result ≤ length path.now }
    ensures before { (k : ℕ) → k < result → slice_index path.now k ≢ slash }
    ensures at { result < length path.now → slice_index path.now result ≡ slash }
{
    for (i, byte) in path.iter().enumerate() {
        if *byte == b'/' {
            return i;
        }
    }
    path.len()
}
