//! What is kept of a run beside its memory, call by call. Limits are reached, and passed by one.

mod manifests;
mod notes;
mod pipes;
mod trees;
