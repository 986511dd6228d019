//! The loads of the files that a manifest's lines bring in.
ghost use Rattle.std.specs.Prelude.{◌≡◌, map};
ghost use Rattle.std.specs.List.{AllByRecursion};
ghost use Rattle.std.specs.Str.{IsAscii};
ghost use Rattle.manifest_text.specs.Values.{item_value};
ghost use Rattle.manifest_text.specs.Laws.{IsItem};
ghost use Rattle.file_commands.specs.Observed.{observed};
ghost use Rattle.file_commands.specs.Items.{has_file, load_limit};
ghost use Rattle.file_commands.specs.ItemLoads.{LoadsItem, LoadsItems};

use crate::ended::Ended;
use crate::file_load::{INPUT_LIMIT, load_limited};
use host_io::Host;
use manifest_text::{Item, ItemKind};
use std::alloc::Global;

/// The most bytes of all files together.
const FILES_LIMIT: u32 = 268_435_456;

/// The most bytes of a file that stands in the machine as it is, and of the console's input.
const MACHINE_FILE_LIMIT: u32 = 16_777_216;

/// Loads the files of these lines in order, up to the first load that fails or is too long. That of a folder is empty.
pub fn load_items<H: Host>(
    alloc: Global,
    items: &[Item],
    host: &mut H,
) -> Result<Vec<Vec<u8>>, Ended>
    requires { AllByRecursion IsItem (map item_value items.now) }
    ensures { LoadsItems (observed H.told H.faults host.old) (observed H.told H.faults host.new) (map item_value items.now) result }
{
    let mut files = Vec::new(alloc);
    let mut left = FILES_LIMIT;
    for item in items {
        let bytes = load_item(alloc, item, left, host)?;
        left -= bytes.len() as u32;
        files.push(bytes)?;
    }
    Ok(files)
}

/// Loads the file of a line, where so many bytes are left of those of all files. A folder has none.
fn load_item<H: Host>(alloc: Global, item: &Item, left: u32, host: &mut H) -> Result<Vec<u8>, Ended>
    requires { IsItem (item_value item.now) }
    ensures { LoadsItem (observed H.told H.faults host.old) (observed H.told H.faults host.new) (item_value item.now) left result }
{
    if !has_file(item.kind) {
        return Ok(Vec::new(alloc));
    }
    let limit = load_limit(item.kind, left);
    load_limited(alloc, name_of(item), limit, Some(item.line), host)
}

/// Whether a line brings in a file of the host. That of a folder doesn't.
fn has_file(kind: ItemKind) -> bool
    ensures { result ≡ has_file kind }
{
    match kind {
        ItemKind::Elf | ItemKind::Flat | ItemKind::File | ItemKind::Stdin | ItemKind::Root => {
            true
        }
        ItemKind::Dir => false,
    }
}

/// The limit of one load, where so many bytes are left of those of all files.
fn load_limit(kind: ItemKind, left: u32) -> u32
    ensures { result ≡ load_limit kind left }
{
    match kind {
        ItemKind::Elf | ItemKind::Root => INPUT_LIMIT.min(left),
        ItemKind::Dir => 0,
        ItemKind::Flat | ItemKind::File | ItemKind::Stdin => MACHINE_FILE_LIMIT.min(left),
    }
}

/// The host's name of a line's file.
fn name_of(item: &Item) -> &str
    requires { IsAscii item.now.name.items }
    ensures { result.now ≡ item.now.name.items }
{
    match std::str::from_utf8(&item.name) {
        Ok(name) => name,
        Err(_) => unreachable!(),
    }
}
