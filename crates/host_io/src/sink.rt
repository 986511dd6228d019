//! A sink: it takes bytes, in order.
ghost use Rattle.std.specs.Prelude.{ℕ, List, ◌≤◌, length, Option, IfOk, OnOk, OnErr};
ghost use Rattle.host_io.specs.Faults.{HasCause};
ghost use Rattle.host_io.specs.Sink.{Takes, TakesPrefix, bytes_taken, HasWriteCause};
ghost use Rattle.host_io.specs.declared.sink.SinkError.TheVariants as answer;

use std::alloc::Global;

/// Why a sink took nothing.
#[derive(Clone, Copy, PartialEq, Eq)]
pub enum SinkError {
    /// The outside refused. The count of faults rose.
    Failed,
    /// The sink was out of memory. The count of shortages rose.
    Memory,
}

/// Takes bytes, in the order in which they are written.
pub trait Sink {
    // The bytes that the sink took, if it tells them.
    ghost told: { Self → Option (List ℕ) };

    // How many faults there were. At the end of its type the count stands still.
    ghost faults: { Self → ℕ };

    // How often it was out of memory. At the end of its type the count stands still.
    ghost shortages: { Self → ℕ };

    /// Takes the first n bytes of the piece at `Ok(n)`, and nothing at an error.
    /// `Ok(0)` for a piece that isn't empty is a fault.
    fn write(&mut self, alloc: Global, piece: &[u8]) -> Result<usize, SinkError>
        ensures fits { IfOk result (λ n. n ≤ length piece.now) }
        ensures takes { Takes (told self.old) (told self.new) (bytes_taken result piece.now) }
        ensures cause { HasWriteCause (faults self.old) (faults self.new) piece.now result }
        ensures shortage { HasCause answer.Memory (shortages self.old) (shortages self.new) result };
}

/// Writes all bytes, in as many writes as the sink wants; none for no bytes.
/// After an error the sink has taken a prefix of them, and not all. `Memory` is the sink's own answer.
pub fn write_whole<S: Sink>(alloc: Global, sink: &mut S, bytes: &[u8]) -> Result<(), SinkError>
    ensures ok { OnOk result (Takes (S.told sink.old) (S.told sink.new) bytes.now) }
    ensures err { OnErr result (TakesPrefix (S.told sink.old) (S.told sink.new) bytes.now) }
    ensures cause { HasCause answer.Failed (S.faults sink.old) (S.faults sink.new) result }
    ensures shortage { HasCause answer.Memory (S.shortages sink.old) (S.shortages sink.new) result }
{
    let mut rest = bytes;
    while !rest.is_empty() {
        let taken = sink.write(alloc, rest)?;
        if taken == 0 {
            return Err(SinkError::Failed);
        }
        let (_, left) = rest.split_at(taken);
        rest = left;
    }
    Ok(())
}
