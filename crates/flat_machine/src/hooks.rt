//! What is handed down a run.

use page_runs::Chooser;
use watch_points::Watcher;

/// The hooks of a run: what chooses free runs, and what is watched.
#[derive(Drop)]
pub(crate) struct Hooks<'a, F, G> {
    pub(crate) chooser: &'a Chooser<F>,
    pub(crate) watcher: &'a Watcher<'a, G>,
}
