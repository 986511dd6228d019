//! Loads in turn, of any host.

use crate::files::path_in;
use host_io::{Host, HostError, Loaded};
use std::alloc::AllocError;

/// A name and a limit; what a load answers, and how many bytes of the content are in the buffer then.
pub(crate) type Load = (&'static str, u32, Result<Loaded, HostError>, usize);

/// Whether a load of a file in a folder, with this content, is answered so.
fn is_loaded<H: Host>(
    rt: &HostRuntime,
    host: &mut H,
    folder: &str,
    content: &[u8],
    load: &Load,
) -> Result<bool, AllocError> {
    let (name, limit, want, len) = load;
    let path = path_in(rt, folder, name)?;
    let mut into = Vec::from_slice(rt.alloc(), b"before")?;
    let answer = host.load(rt.alloc(), path.as_str(), *limit, &mut into);
    Ok(answer == *want && content.get(..*len) == Some(into.as_slice()))
}

/// Loads names in turn: whether each is answered so, and leaves that in the buffer.
pub(crate) fn are_loaded<H: Host>(
    rt: &HostRuntime,
    host: &mut H,
    folder: &str,
    content: &[u8],
    loads: &[Load],
) -> Result<bool, AllocError> {
    for load in loads {
        if !is_loaded(rt, host, folder, content, load)? {
            return Ok(false);
        }
    }
    Ok(true)
}
