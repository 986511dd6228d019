//! The limit of a load.
ghost use Rattle.std.specs.Prelude.{None};

use super::*;
use host_io::{HostError, Loaded};

/// The most bytes of a file that is loaded.
const LIMIT: u32 = 67_108_864;

/// A host with one file of this many bytes. It tells nothing, and gives none of the bytes.
#[derive(Drop)]
struct SizeHost {
    size: u32,
}

impl Host for SizeHost {
    ghost told = { λ _. None };

    ghost faults = { λ _. 0 };

    fn load(
        &mut self,
        _alloc: Global,
        _name: &str,
        limit: u32,
        into: &mut Vec<u8>,
    ) -> Result<Loaded, HostError> {
        into.clear();
        if self.size > limit {
            Ok(Loaded::TooLong)
        } else {
            Ok(Loaded::All)
        }
    }

    fn store(&mut self, _alloc: Global, _name: &str, _bytes: &[u8]) -> Result<(), HostError> {
        Ok(())
    }
}

/// Whether `convert` of a file of this size reports this line.
fn is_reported(alloc: Global, size: u32, line: &str) -> Result<bool, AllocError> {
    let mut host = SizeHost { size };
    let mut out = MemSink::new(alloc)?;
    let mut report = MemSink::new(alloc)?;
    call_suite(
        alloc,
        &["convert", "a.elf", "a.flt"],
        &mut host,
        &mut out,
        &mut report,
    )?;
    Ok(report.bytes() == line.as_bytes())
}

#[test]
fn limit_is_exact(rt: HostRuntime) -> Result<(), Fail> {
    let sizes = [
        (LIMIT, "refused: elf 1 Short\n"),
        (LIMIT + 1, "refused: too long\n"),
    ];
    for (size, line) in sizes {
        let holds = is_reported(rt.alloc(), size, line)?;
        assert!(rt; holds, "size {size}");
    }
    Ok(())
}
