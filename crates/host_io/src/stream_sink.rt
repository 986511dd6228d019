//! Sinks over real streams. They tell no content as sinks; their lines over std are trusted.
ghost use Rattle.std.specs.Prelude.{◌≡◌, ◌≤◌, length, None, IfOk, IfErr};
ghost use Rattle.std.specs.Io.KnownBytes.{WriteAppends};
ghost use Rattle.host_io.specs.Faults.{HasCause};
ghost use Rattle.host_io.specs.Sink.{Takes, bytes_taken, HasWriteCause};
ghost use Rattle.host_io.specs.declared.sink.SinkError.TheVariants as answer;

use crate::sink::{Sink, SinkError};
use std::alloc::Global;
use std::io::{ErrorKind, Write};
use std::marker::Model;
use std::rt::{Stderr, Stdout};

/// Writes to a stream that keeps no buffer of its own. It answers `Failed` alone, never `Memory`.
#[derive(Drop)]
pub struct StreamSink<W: Write> {
    stream: W,
    faults: u64,
}

/// Standard output, from the runtime's `stdout()`.
pub type OutSink = StreamSink<Stdout>;

/// Standard error, from the runtime's `stderr()`.
pub type ErrSink = StreamSink<Stderr>;

impl<W: Write> Model for StreamSink<W> {
    ghost use Rattle.host_io.specs.StreamSink.{StreamState, stream_state_code};

    ghost Value = { StreamState };

    ghost coded = { stream_state_code };

    ghost view = { λ s. record { contents = W.contents s.stream; faults = s.faults } };
}

impl<W: Write> StreamSink<W> {
    pub fn new(stream: W) -> StreamSink<W>
        ensures { result ≡ record { contents = W.contents stream; faults = 0 } }
    {
        StreamSink { stream, faults: 0 }
    }
}

impl<W: Write> Sink for StreamSink<W> {
    ghost told = { λ _. None };

    ghost faults = { λ s. s.faults };

    ghost shortages = { λ _. 0 };

    fn write(&mut self, _alloc: Global, piece: &[u8]) -> Result<usize, SinkError>
        ensures stream { WriteAppends self.old.contents self.new.contents result piece.now }
        ensures failed { IfErr result (λ error. error ≡ answer.Failed) }
        ensures fits { IfOk result (λ n. n ≤ length piece.now) }
        ensures takes { Takes None None (bytes_taken result piece.now) }
        ensures cause { HasWriteCause self.old.faults self.new.faults piece.now result }
        ensures shortage { HasCause answer.Memory 0 0 result }
    {
        let outcome = write_some(&mut self.stream, piece);
        if outcome.is_err() {
            self.faults = self.faults.saturating_add(1);
        }
        outcome
    }
}

/// One write, made again where a signal broke it off. Failed where it failed, or took nothing of a
/// piece that isn't empty.
fn write_some<W: Write>(stream: &mut W, piece: &[u8]) -> Result<usize, SinkError>
    ensures stream { WriteAppends (W.contents stream.old) (W.contents stream.new) result piece.now }
    ensures failed { IfErr result (λ error. error ≡ answer.Failed) }
    ensures fits { IfOk result (λ n. n ≤ length piece.now) }
    ensures some { result ≡ Ok 0 → length piece.now ≡ 0 }
{
    for _ in 0..u64::MAX {
        match stream.write(piece) {
            Ok(0) if !piece.is_empty() => return Err(SinkError::Failed),
            Ok(taken) => return Ok(taken),
            Err(error) if error.kind() == ErrorKind::Interrupted => {}
            Err(_) => return Err(SinkError::Failed),
        }
    }
    Err(SinkError::Failed)
}
