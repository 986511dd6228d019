//! The free pages of the machine's memory as a list of runs, and the three placements.
//!
//! What may stand here: numbers of pages, runs of pages, and which run a request is cut from. What may
//! not: the bytes of pages, who holds pages that aren't free, addresses. Only `Runs::new` takes memory of
//! the host.
#![tactic(auto)]

mod chooser;
mod edits;
mod laws;
mod place;
mod run;
mod runs;

pub use chooser::Chooser;
pub use laws::{free_runs_law, place_law};
pub use place::{Kind, best_fit, first_fit, last_fit};
pub use run::Run;
pub use runs::Runs;
