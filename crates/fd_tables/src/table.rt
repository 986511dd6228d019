//! Tables of descriptors.

ghost use Rattle.std.specs.Prelude.{◌≡◌, false, Some, slice_set};
ghost use Rattle.fd_tables.specs.Files.{at_number, descriptor_in, free_in, two_free_in};
ghost use Rattle.fd_tables.specs.Changes.{first_table, with_item};

use crate::open_file::{Descriptor, Handle};
use crate::pipe_view::Ends;
use crate::places::{at_number, first_free, set_place};

/// How many descriptors a table has: 0 and up.
pub(crate) const MOST_DESCRIPTORS: u32 = 32;

/// What is open, by descriptor.
pub(crate) type Table = [Option<Descriptor>; MOST_DESCRIPTORS as usize];

/// The table in which the console alone is open.
pub(crate) fn first_table() -> Table
    ensures { result ≡ first_table }
{
    let mut table = [None; MOST_DESCRIPTORS as usize];
    table[0] = console(Handle::Input);
    table[1] = console(Handle::Output);
    table[2] = console(Handle::Output);
    table
}

fn console(handle: Handle) -> Option<Descriptor>
    ensures { result ≡ Some (record { handle = handle; cloexec = false }) }
{
    Some(Descriptor {
        handle,
        cloexec: false,
    })
}

/// A descriptor of a table, if it is open.
pub(crate) fn descriptor(tables: &[Option<Table>], table: u32, fd: u32) -> Option<Descriptor>
    ensures { result ≡ descriptor_in (at_number tables.now table) fd }
{
    match tables.get(table as usize) {
        Some(Some(places)) => at_number(places, fd),
        _ => None,
    }
}

/// The lowest descriptor of a table that isn't open.
pub(crate) fn lowest_free(tables: &[Option<Table>], table: u32) -> Option<u32>
    ensures { result ≡ free_in (at_number tables.now table) }
{
    match tables.get(table as usize) {
        Some(Some(places)) => free_place(places),
        _ => None,
    }
}

fn free_place(places: &Table) -> Option<u32>
    ensures { result ≡ free_in (Some places.now) }
{
    let place = first_free(places)?;
    Some(place as u32)
}

/// The two lowest descriptors of a table that aren't open.
pub(crate) fn two_free(tables: &[Option<Table>], table: u32) -> Option<Ends>
    ensures { result ≡ two_free_in (at_number tables.now table) }
{
    match tables.get(table as usize) {
        Some(Some(places)) => two_free_places(places),
        _ => None,
    }
}

fn two_free_places(places: &Table) -> Option<Ends>
    ensures { result ≡ two_free_in (Some places.now) }
{
    let mut lowest = None;
    for fd in 0..MOST_DESCRIPTORS {
        if places[fd as usize].is_none() {
            match lowest {
                None => lowest = Some(fd),
                Some(read) => return Some(Ends { read, write: fd }),
            }
        }
    }
    None
}

/// Opens or closes a descriptor of a table, if that is there.
pub(crate) fn set_descriptor(
    tables: &mut [Option<Table>],
    table: u32,
    fd: u32,
    descriptor: Option<Descriptor>,
)
    ensures { tables.new ≡ with_item (λ places. Some (slice_set places fd descriptor)) tables.old table }
{
    let table = table as usize;
    if table < tables.len() {
        if let Some(places) = &mut tables[table] {
            set_place(places, fd, descriptor);
        }
    }
}
