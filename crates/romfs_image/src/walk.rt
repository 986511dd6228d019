//! The walk over an image: a header, then its list if it is a folder, then the header that its next names.

ghost use Rattle.std.specs.Prelude.{◌≡◌, ◌+◌, ◌<◌, ◌≤◌, ◌^◌, ◌⊎◌, IfOk, None, Some, Ok, Err, reverse, length, OnOk, IfErr, MatchResult};
ghost use Rattle.romfs_image.specs.Header.{name_end};
ghost use Rattle.romfs_image.specs.Walk.{pending, levels_behind, entries_behind, repeat_fault, walked};
ghost use Rattle.romfs_image.specs.declared.fault.RomFault.TheVariants.{Memory};
ghost use Rattle.romfs_image.specs.Code.{header_value, entry_level, found, HasNames, NothingTaken};
ghost use Rattle.romfs_image.specs.Reading.{FilesFit};

use crate::fault::RomFault;
use crate::header::{Header, is_node, name_end, sound_header};
use crate::level::{Entry, Level};
use std::alloc::{AllocError, Global};
use std::collections::BTreeSet;

/// Goes on at a position too, unless that is 0.
fn go_on(levels: &mut Vec<Level>, at: u32, folder: u32) -> Result<(), AllocError>
    ensures { OnOk result (reverse levels.new.items ≡ pending at folder (reverse levels.old.items)) }
{
    if at != 0 {
        levels.push(Level { at, folder })?;
    }
    Ok(())
}

/// Goes on behind a header: at its list, if it is a folder, whose number it then has, and then at its next.
fn go_behind(
    levels: &mut Vec<Level>,
    header: &Header<'_>,
    folder: u32,
    number: u32,
) -> Result<(), AllocError>
    ensures { OnOk result (reverse levels.new.items ≡ levels_behind (header_value header.now) folder number (reverse levels.old.items)) }
{
    go_on(levels, header.next, folder)?;
    if is_node(header) && header.kind.is_folder() {
        go_on(levels, header.info, number)?;
    }
    Ok(())
}

/// Adds an entry, unless its folder has one of its name.
fn add<'a>(
    names: &mut BTreeSet<(u32, &'a [u8])>,
    entries: &mut Vec<Entry<'a>>,
    entry: &Entry<'a>,
) -> Result<(), RomFault>
    requires { HasNames names.old (found entries.old.items) }
    ensures ok { OnOk result (repeat_fault entry.now.folder (header_value entry.now.header) (found entries.old.items) ≡ None) }
    ensures added { OnOk result (found entries.new.items ≡ entries_behind (header_value entry.now.header) (entry_level entry.now) (found entries.old.items)) }
    ensures names { OnOk result (HasNames names.new (found entries.new.items)) }
    ensures len { OnOk result (length entries.new.items ≤ length entries.old.items + 1) }
    ensures err { IfErr result (λ fault. (fault ≡ Memory) ⊎ (repeat_fault entry.now.folder (header_value entry.now.header) (found entries.old.items) ≡ Some fault)) }
{
    if is_node(&entry.header) {
        if !names.insert((entry.folder, entry.header.name))? {
            return Err(RomFault::Repeated);
        }
        entries.push(*entry)?;
    }
    Ok(())
}

/// Takes the headers in the order of the walk, from the root's first one on.
fn take_all<'a>(
    image: &'a [u8],
    names: &mut BTreeSet<(u32, &'a [u8])>,
    entries: &mut Vec<Entry<'a>>,
    levels: &mut Vec<Level>,
) -> Result<(), RomFault>
    requires long { length image.now < 2 ^ 32 }
    requires volume { name_end image.now 0 ≤ length image.now }
    requires nothing { NothingTaken names.old entries.old.items levels.old.items }
    ensures walked { OnOk result (walked image.now ≡ Ok (found entries.new.items)) }
    ensures fit { OnOk result (FilesFit image.now (found entries.new.items)) }
    ensures fault { IfErr result (λ fault. (fault ≡ Memory) ⊎ (walked image.now ≡ Err fault)) }
{
    let mut before = 0;
    go_on(levels, name_end(image, 0) as u32, 0)?;
    for _ in 0..image.len() {
        let Some(level) = levels.pop() else {
            return Ok(());
        };
        let header = sound_header(image, before, level.at)?;
        before = level.at;
        let number = entries.len() as u32 + 1;
        let entry = Entry {
            folder: level.folder,
            at: level.at,
            header,
        };
        add(names, entries, &entry)?;
        go_behind(levels, &header, level.folder, number)?;
    }
    Ok(())
}

/// The headers that aren't passed over, in the order of the walk, or the first fault.
pub fn walk(alloc: Global, image: &[u8]) -> Result<Vec<Entry<'_>>, RomFault>
    requires long { length image.now < 2 ^ 32 }
    requires volume { name_end image.now 0 ≤ length image.now }
    ensures walked { MatchResult result
        (λ entries. walked image.now ≡ Ok (found entries.items))
        (λ fault. (fault ≡ Memory) ⊎ (walked image.now ≡ Err fault)) }
    ensures fit { IfOk result (λ entries. FilesFit image.now (found entries.items)) }
{
    let mut names = BTreeSet::new(alloc);
    let mut entries = Vec::new(alloc);
    let mut levels = Vec::new(alloc);
    take_all(image, &mut names, &mut entries, &mut levels)?;
    Ok(entries)
}
