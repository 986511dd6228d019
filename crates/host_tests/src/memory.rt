//! The memory forms, each call once with ample memory.

use crate::loads::{Load, are_loaded};
use host_io::{Host, HostError, Loaded, MemHost, MemSink, Sink, SinkError, write_whole};
use std::alloc::{AllocError, Global};
use std::test::Fail;

/// A memory host with one file, whose calls 3 and 4 fail.
fn host_with_a_file(alloc: Global) -> Result<MemHost, AllocError> {
    let mut host = MemHost::new(alloc)?;
    host.put("d/a.elf", b"abc")?;
    host.fail_at(3)?;
    host.fail_at(4)?;
    Ok(host)
}

static LOADS: [Load; 4] = [
    ("a.elf", 3, Ok(Loaded::All), 3),
    ("a.elf", 2, Ok(Loaded::TooLong), 0),
    ("m", 9, Err(HostError::Failed), 0),
    ("a.elf", 9, Err(HostError::Failed), 0),
];

/// The store that fails, and the next one, and whether the file has these bytes then, if there is one.
static STORES: [(Result<(), HostError>, Option<bool>); 2] = [
    (Err(HostError::Failed), None),
    (Ok(()), Some(true)),
];

static ASKED: [&str; 6] = ["d/a.elf", "d/a.elf", "d/m", "d/a.elf", "a.flt", "a.flt"];

/// Whether the file that was stored has these bytes, if there is one.
fn has_stored(host: &MemHost) -> Option<bool> {
    let file = host.get("a.flt")?;
    Some(file == b"xy".as_slice())
}

/// Whether stores are answered so, and leave that.
fn are_stored(alloc: Global, host: &mut MemHost) -> bool {
    for (want, stored) in &STORES {
        let answer = host.store(alloc, "a.flt", b"xy");
        if answer != *want || has_stored(host) != *stored {
            return false;
        }
    }
    true
}

/// Whether it was asked for these names.
fn was_asked(host: &MemHost, names: &[&str]) -> bool {
    for (name, want) in host.asked().iter().zip(names) {
        if name.as_str() != *want {
            return false;
        }
    }
    host.asked().len() == names.len()
}

#[test]
fn memory_host_answers_each_call(rt: HostRuntime) -> Result<(), Fail> {
    let mut host = host_with_a_file(rt.alloc())?;
    let loads = are_loaded(&rt, &mut host, "d", b"abc", &LOADS)?;
    let stores = are_stored(rt.alloc(), &mut host);
    assert!(rt; loads && stores && was_asked(&host, &ASKED));
    Ok(())
}

/// A write: how many bytes the sink takes at most from then on, where that is told; the piece; whether it is written
/// whole, by as many writes as that takes; how many bytes are told as taken; and all that the sink has then.
type Written = (
    Option<u32>,
    &'static str,
    bool,
    Result<usize, SinkError>,
    &'static str,
);

const FAILED: Result<usize, SinkError> = Err(SinkError::Failed);

/// The number of the write that fails, and writes: pieces whole, at most so many bytes a write, and whole texts by one
/// byte a write.
static SINKS: [(u32, &[Written]); 3] = [
    (
        2,
        &[
            (None, "hi", false, Ok(2), "hi"),
            (None, "", false, Ok(0), "hi"),
            (None, "!", false, FAILED, "hi"),
            (None, "\n", true, Ok(1), "hi\n"),
        ],
    ),
    (
        9,
        &[
            (None, "hello", false, Ok(5), "hello"),
            (Some(3), "hello", false, Ok(3), "hellohel"),
            (None, "hel", false, Ok(3), "hellohelhel"),
            (None, "h", false, Ok(1), "hellohelhelh"),
            (None, "", false, Ok(0), "hellohelhelh"),
            (Some(1), "hello", false, Ok(1), "hellohelhelhh"),
        ],
    ),
    (
        2,
        &[
            (Some(1), "hi\n", true, FAILED, "hi"),
            (None, "\nho\n", true, Ok(4), "hi\nho\n"),
        ],
    ),
];

/// Whether a write is answered so.
fn is_written(alloc: Global, sink: &mut MemSink, written: &Written) -> bool {
    let (most, piece, whole, want, all) = written;
    if let Some(most) = most
        && *most > 0
    {
        sink.take_at_most(*most);
    }
    let answer = if *whole {
        write_whole(alloc, sink, piece.as_bytes()).map(|()| piece.len())
    } else {
        sink.write(alloc, piece.as_bytes())
    };
    answer == *want && sink.bytes() == all.as_bytes()
}

#[test]
fn memory_sink_answers_each_write(rt: HostRuntime) -> Result<(), Fail> {
    for (fails_at, writes) in &SINKS {
        let mut sink = MemSink::new(rt.alloc())?;
        sink.fail_at(*fails_at)?;
        for written in *writes {
            assert!(rt; is_written(rt.alloc(), &mut sink, written), "{}", written.4);
        }
    }
    Ok(())
}
