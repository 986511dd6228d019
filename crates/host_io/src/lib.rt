//! The outside of the program: a host that keeps files by name, and sinks that take bytes.
//!
//! Here stand the two traits, their memory forms and their forms over the real system.
//! No format, no command and no text of the program stands here.
#![tactic(auto)]

mod calls;
mod folder_host;
mod host;
mod kinds;
mod mem_host;
mod mem_sink;
mod reading;
mod replacing;
mod sink;
mod stream_sink;

pub use folder_host::FolderHost;
pub use host::{Host, HostError, Loaded};
pub use mem_host::MemHost;
pub use mem_sink::MemSink;
pub use sink::{Sink, SinkError, write_whole};
pub use stream_sink::{ErrSink, OutSink, StreamSink};
