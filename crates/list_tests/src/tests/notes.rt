//! The log at the limit of its bytes.

use call_log::{Entry, How, Log, LogFault, Note};
use std::alloc::{AllocError, Global};
use std::test::*;

/// A write of so many zeros.
fn write(alloc: Global, sent: usize) -> Result<Note, AllocError> {
    Ok(Note::Call(Entry {
        pid: 1,
        call: 64,
        args: [1, 0x8000_00a4, 3, 0, 0, 0],
        sent: vec![in alloc; 0u8; sent]?,
        reply: 3,
        got: Vec::new(alloc),
    }))
}

/// What is asked of a log.
#[derive(Clone, Copy)]
enum Step {
    /// Whether it has room for a call with so many bytes.
    Room(u64),
    /// To keep a call with so many.
    Write(usize),
    /// To keep an end.
    End,
    /// To take the newest note back.
    TakeBack,
}

/// Whether there is room, or a note is kept; true of all else, and None where memory is wanting.
fn answer(alloc: Global, log: &mut Log, step: Step) -> Option<bool> {
    let note = match step {
        Step::Room(bytes) => return Some(log.room(bytes)),
        Step::TakeBack => {
            log.take_back();
            return Some(true);
        }
        Step::Write(bytes) => write(alloc, bytes).ok()?,
        Step::End => Note::End {
            pid: 1,
            how: How::Exit(0),
        },
    };
    match log.push(note) {
        Ok(()) => Some(true),
        Err(LogFault::Full) => Some(false),
        Err(LogFault::Memory) => None,
    }
}

/// A fourth of all the bytes that a log keeps.
const FOURTH: usize = 16_777_216;

/// Steps, their answers, and how many notes there are then.
static STEPS: [(Step, bool, usize); 18] = [
    (Step::Room(16_777_216), true, 0),
    (Step::Write(FOURTH), true, 1),
    (Step::Room(16_777_216), true, 1),
    (Step::Write(FOURTH), true, 2),
    (Step::Room(16_777_216), true, 2),
    (Step::Write(FOURTH), true, 3),
    (Step::Room(16_777_216), true, 3),
    (Step::Write(FOURTH), true, 4),
    (Step::Room(0), true, 4),
    (Step::Room(1), false, 4),
    (Step::Write(1), false, 4),
    (Step::Write(0), true, 5),
    (Step::End, true, 6),
    (Step::TakeBack, true, 5),
    (Step::TakeBack, true, 4),
    (Step::TakeBack, true, 3),
    (Step::Room(16_777_216), true, 3),
    (Step::Room(16_777_217), false, 3),
];

fn fills(alloc: Global, log: &mut Log) -> bool {
    for &(step, done, notes) in &STEPS {
        if answer(alloc, log, step) != Some(done) || log.notes().len() != notes {
            return false;
        }
    }
    true
}

#[test]
fn large_entries_fill_the_log(rt: HostRuntime) -> Result<(), Fail> {
    let mut log = Log::new(rt.alloc())?;
    assert!(rt; fills(rt.alloc(), &mut log));
    Ok(())
}
