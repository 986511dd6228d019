//! The sinks over streams.

use crate::files::broken_files::{BrokenFiles, Step};
use host_io::{ErrSink, OutSink, Sink, SinkError, StreamSink, write_whole};
use std::alloc::Global;
use std::fs;
use std::rt::Files;
use std::test::Fail;

#[test]
fn sinks_over_real_streams(rt: HostRuntime) -> Result<(), Fail> {
    let mut full = fs::OpenOptions::new();
    full.write(true);
    let mut full = StreamSink::new(full.open(&rt, "/dev/full")?);
    let answers = [
        write_whole(rt.alloc(), &mut OutSink::new(rt.stdout()), b"to out\n"),
        write_whole(rt.alloc(), &mut ErrSink::new(rt.stderr()), b"to report\n"),
        write_whole(rt.alloc(), &mut full, b"x"),
    ];
    assert!(rt; answers == [Ok(()), Ok(()), Err(SinkError::Failed)]);
    Ok(())
}

/// What each write of a piece is told to have taken.
static TAKEN: [Result<usize, SinkError>; 3] = [Ok(2), Ok(2), Err(SinkError::Failed)];

/// Whether the writes of pieces are told so.
fn takes_pieces<S: Sink>(alloc: Global, sink: &mut S) -> bool {
    for want in &TAKEN {
        if sink.write(alloc, b"piece") != *want {
            return false;
        }
    }
    true
}

/// The stream breaks off every second write by a signal, and is closed once it has taken four bytes.
#[test]
fn short_writes_are_told_as_such(rt: HostRuntime) -> Result<(), Fail> {
    let files = BrokenFiles::new(rt.clone()?, Step::Write);
    let mut how = fs::OpenOptions::new();
    how.write(true);
    let mut sink = StreamSink::new(files.open_file(&how, "/dev/null")?);
    assert!(rt; takes_pieces(rt.alloc(), &mut sink));
    Ok(())
}
