//! Which loads and stores of a program hit what is watched, and the loop of instructions that tells them.
//!
//! What may stand here: ranges that are watched, closures that say which accesses hit one, the hits that are
//! kept, and the loop over a bus that keeps accesses near what is watched. What may not: which accesses are
//! carried out, processes, whose turn it is, and texts. Only `Hits::new` takes memory of the host.
#![tactic(auto)]

mod hits;
mod laws;
mod near;
mod point;
mod probed;
mod span;
mod watched;
mod watcher;

pub use hits::{Hit, Hits};
pub use laws::{found_law, hits_law};
pub use point::{PointKind, WatchPoint};
pub use span::{Span, touches, within};
pub use watched::run_watched;
pub use watcher::Watcher;
