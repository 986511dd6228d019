//! Which pipes are marked: no run shows it, since all that wait on a marked one go on before the next event.

use fd_tables::Files;
use std::alloc::Global;
use std::test::*;

/// Writes one byte to a pipe.
fn put(files: &mut Files, id: u32) {
    if files.pipe_view(id).held < 65_536 {
        files.pipe_put(id, b"x");
    }
}

fn take(files: &mut Files, id: u32, n: u32) {
    if n <= files.pipe_view(id).held {
        files.pipe_take(id, n);
    }
}

fn three_pipes(alloc: Global) -> Result<Files, Fail> {
    let mut files = Files::new(alloc, Vec::new(alloc))?;
    files.new_table()?;
    for _ in 0..3 {
        files.pipe(0, false)?;
    }
    Ok(files)
}

/// Which pipe is marked, one after the other.
static MARKS: [Option<u32>; 3] = [Some(1), Some(3), None];

/// The pipes that get a byte.
static PUT: [u32; 3] = [3, 1, 3];

fn marks(files: &mut Files) -> bool {
    for &id in &PUT {
        put(files, id);
    }
    for &want in &MARKS {
        if files.next_changed() != want {
            return false;
        }
    }
    take(files, 3, 2);
    files.next_changed() == Some(3)
}

#[test]
fn the_lowest_marked_pipe_comes_first(rt: HostRuntime) -> Result<(), Fail> {
    let mut files = three_pipes(rt.alloc())?;
    assert!(rt; marks(&mut files));
    Ok(())
}
