//! Pipes: one without a path is read and written, and one with a path isn't opened.

use super::broken_files::{Step, broken_host};
use super::real_host;
use host_io::{Host, HostError, Loaded};
use std::alloc::{AllocError, Global};
use std::io;
use std::io::{PipeReader, Read};
use std::os::fd::AsRawFd;
use std::test::Fail;

/// The path of an open descriptor.
fn path_of(alloc: Global, number: i32) -> Result<String, AllocError> {
    format!(in alloc; "/dev/fd/{number}")
}

/// What a host answers to a store into a descriptor.
fn store_at<H: Host>(
    alloc: Global,
    host: &mut H,
    number: i32,
    bytes: &[u8],
) -> Result<Result<(), HostError>, AllocError> {
    let path = path_of(alloc, number)?;
    Ok(host.store(alloc, &path, bytes))
}

/// Whether a load of a descriptor is answered so, and gives these bytes.
fn is_loaded_at<H: Host>(
    alloc: Global,
    host: &mut H,
    number: i32,
    want: Result<Loaded, HostError>,
    bytes: &[u8],
) -> Result<bool, AllocError> {
    let path = path_of(alloc, number)?;
    let mut into = Vec::new(alloc);
    let answer = host.load(alloc, &path, 5, &mut into);
    Ok(answer == want && into.as_slice() == bytes)
}

/// Whether the bytes of two stores into a pipe are taken, and the first ones can be read.
fn takes_stores(rt: &HostRuntime, number: i32, reader: &mut PipeReader) -> Result<bool, Fail> {
    let mut host = real_host(rt)?;
    let first = store_at(rt.alloc(), &mut host, number, b"piped")?;
    let mut taken = [0u8; 5];
    reader.read_exact(&mut taken)?;
    let second = store_at(rt.alloc(), &mut host, number, b"again")?;
    Ok(first == Ok(()) && taken.as_slice() == b"piped".as_slice() && second == Ok(()))
}

/// Whether the second ones are loaded.
fn gives_again(rt: &HostRuntime, number: i32) -> Result<bool, AllocError> {
    let mut host = real_host(rt)?;
    is_loaded_at(rt.alloc(), &mut host, number, Ok(Loaded::All), b"again")
}

#[test]
fn a_pipe_without_a_path_is_taken(rt: HostRuntime) -> Result<(), Fail> {
    let (mut reader, writer) = io::pipe(&rt)?;
    let takes = takes_stores(&rt, writer.as_raw_fd(), &mut reader)?;
    drop(writer);
    assert!(rt; takes && gives_again(&rt, reader.as_raw_fd())?);
    Ok(())
}

fn refuses_store(rt: &HostRuntime, number: i32) -> Result<bool, AllocError> {
    let mut host = broken_host(rt, Step::OwnPaths)?;
    Ok(store_at(rt.alloc(), &mut host, number, b"piped")? == Err(HostError::Failed))
}

fn refuses_load(rt: &HostRuntime, number: i32) -> Result<bool, AllocError> {
    let mut host = broken_host(rt, Step::OwnPaths)?;
    is_loaded_at(rt.alloc(), &mut host, number, Err(HostError::Failed), b"")
}

#[test]
fn a_pipe_with_a_path_is_refused(rt: HostRuntime) -> Result<(), Fail> {
    let (reader, writer) = io::pipe(&rt)?;
    let stored = refuses_store(&rt, writer.as_raw_fd())?;
    drop(writer);
    assert!(rt; stored && refuses_load(&rt, reader.as_raw_fd())?);
    Ok(())
}
