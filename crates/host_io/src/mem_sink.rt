//! A sink in memory.
ghost use Rattle.std.specs.Prelude.{◌≡◌, ◌≤◌, ◌<◌, ◌⊎◌, [], length, IfOk, OnOk, OnErr, Some, None};
ghost use Rattle.host_io.specs.Calls.{no_calls, with_failing};
ghost use Rattle.host_io.specs.Faults.{HasCause};
ghost use Rattle.host_io.specs.MemSink.{TakesSome, part_taken, write_answer, after_write};
ghost use Rattle.host_io.specs.Sink.{Takes, bytes_taken, HasWriteCause};
ghost use Rattle.host_io.specs.declared.sink.SinkError.TheVariants.{Memory};

use crate::calls::Calls;
use crate::sink::{Sink, SinkError};
use std::alloc::{AllocError, Global};
use std::marker::Model;

/// Keeps all bytes that it takes. It takes each piece whole, until it is told to take less.
#[derive(Drop)]
pub struct MemSink {
    bytes: Vec<u8>,
    calls: Calls,
    most: Option<u32>,
    shortages: u64,
}

impl Model for MemSink {
    ghost use Rattle.host_io.specs.MemSink.{SinkState, sink_state_code, TakesSome};

    ghost Value = { SinkState };

    ghost coded = { sink_state_code };

    ghost view = { λ s. record { bytes = s.bytes.items; calls = s.calls; most = s.most; shortages = s.shortages } };

    ghost invariant = { λ s. TakesSome s.most };
}

impl MemSink {
    pub fn new(alloc: Global) -> Result<MemSink, AllocError>
        ensures { IfOk result (λ sink. sink ≡ record { bytes = []; calls = no_calls; most = None; shortages = 0 }) }
    {
        Ok(MemSink {
            bytes: Vec::new(alloc),
            calls: Calls::new(alloc),
            most: None,
            shortages: 0,
        })
    }

    /// The bytes taken so far.
    pub fn bytes(&self) -> &[u8]
        ensures { result.now ≡ self.now.bytes }
    {
        self.bytes.as_slice()
    }

    /// Makes the write of this number fail. Writes count from 0.
    pub fn fail_at(&mut self, call: u32) -> Result<(), AllocError>
        ensures ok { OnOk result (self.new ≡ record self.old { calls = with_failing self.old.calls call }) }
        ensures err { OnErr result (self.new ≡ self.old) }
    {
        self.calls.fail_at(call)
    }

    /// Makes each later write take at most `n` bytes of its piece, and so at least one of a piece that
    /// isn't empty.
    pub fn take_at_most(&mut self, n: u32)
        requires some { 0 < n }
        ensures { self.new ≡ record self.old { most = Some n } }
    {
        self.most = Some(n);
    }
}

/// How many bytes of a piece of so many a write takes.
fn part_taken(most: Option<u32>, size: usize) -> usize
    ensures part { result ≡ part_taken most size }
    ensures fits { result ≤ size }
    ensures some { TakesSome most → 0 < size → 0 < result }
{
    match most {
        Some(most) if (most as usize) < size => most as usize,
        Some(_) | None => size,
    }
}

impl Sink for MemSink {
    ghost told = { λ s. Some s.bytes };

    ghost faults = { λ s. s.calls.faults };

    ghost shortages = { λ s. s.shortages };

    fn write(&mut self, _alloc: Global, piece: &[u8]) -> Result<usize, SinkError>
        ensures answer { (result ≡ Err Memory) ⊎ (result ≡ write_answer self.old piece.now) }
        ensures after { self.new ≡ after_write self.old piece.now result }
        ensures some { result ≡ Ok 0 → piece.now ≡ [] }
        ensures fits { IfOk result (λ n. n ≤ length piece.now) }
        ensures takes { Takes (Some self.old.bytes) (Some self.new.bytes) (bytes_taken result piece.now) }
        ensures cause { HasWriteCause self.old.calls.faults self.new.calls.faults piece.now result }
        ensures shortage { HasCause Memory self.old.shortages self.new.shortages result }
    {
        if self.calls.is_failing() {
            self.calls.count();
            self.calls.fault();
            return Err(SinkError::Failed);
        }
        let size = part_taken(self.most, piece.len());
        if self.bytes.extend_from_slice(&piece[..size]).is_err() {
            self.shortages = self.shortages.saturating_add(1);
            return Err(SinkError::Memory);
        }
        self.calls.count();
        Ok(size)
    }
}
