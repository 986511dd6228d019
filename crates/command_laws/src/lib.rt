//! Laws of the single commands, over every call of `suite`. No code runs.
//!
//! What may stand here: laws of one command, by what the clause of `suite` says of a call. What may not: code, and the laws
//! over every command, which stand in `suite_top`.
#![tactic(auto)]

mod demo_laws;
mod file_laws;
mod items_laws;
mod run_laws;
mod trace_laws;

pub use demo_laws::{demo_law, demo_turns_law};
pub use file_laws::{check_law, convert_law, list_law, replay_law, romfs_law, unromfs_law};
pub use items_laws::{accepted_law, replayed_law};
pub use run_laws::{
    alone_law, counts_law, go_on_law, headline_law, items_law, originals_law, regular_worlds_law,
    run_law, waits_law, watch_law,
};
pub use trace_laws::trace_law;
