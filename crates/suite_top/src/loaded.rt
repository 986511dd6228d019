//! What the loads of a run gave.
use manifest_text::Manifest;

/// A manifest, and a file for each of its item lines.
#[derive(Drop)]
pub(crate) struct Loaded {
    pub manifest: Manifest,
    pub files: Vec<Vec<u8>>,
}
