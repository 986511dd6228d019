//! What a line adds to the manifest so far, and the manifest of all lines.

ghost use Rattle.std.specs.Prelude.{◌≡◌, [], ◌∷◌, map, IfOk};
ghost use Rattle.byte_words.specs.Search.{first};
ghost use Rattle.manifest_text.specs.Values.{item_value, manifest_value};
ghost use Rattle.manifest_text.specs.Manifest.{draft_of, is_stdin, is_root, repeats, item_rows, late_fault, manifest_by, whole};
ghost use Rattle.manifest_text.specs.Reading.{said_value, draft_value, added, Reads};

use crate::draft::Draft;
use crate::fault::{ManifestFault, ManifestRefusal};
use crate::manifest::{Item, ItemKind, Manifest};
use crate::spoken::Spoken;
use std::alloc::{AllocError, Global};

/// The most item lines.
const MOST_ITEMS: usize = 4096;

/// The most start lines.
const MOST_STARTS: usize = 64;

/// The most dump lines.
const MOST_DUMPS: usize = 64;

/// The most watch lines.
const MOST_WATCHES: usize = 64;

/// The most quanta of all lines.
const MOST_QUANTA: usize = 65_536;

/// The pages of memory where no line says them.
const DEFAULT_PAGES: u32 = 256;

impl Draft {
    #[tactic(auto, unfolding(crate::specs::Manifest::draft_of))]
    pub fn new(alloc: Global) -> Draft
        ensures { draft_value result ≡ draft_of [] }
    {
        Draft {
            pages: None,
            items: Vec::new(alloc),
            starts: Vec::new(alloc),
            quanta: Vec::new(alloc),
            count: None,
            dumps: Vec::new(alloc),
            watches: Vec::new(alloc),
        }
    }

    /// The fault of a line behind those so far.
    #[tactic(auto, unfolding(crate::specs::Manifest::late_fault))]
    pub fn late_fault(&self, said: &Spoken) -> Option<ManifestFault>
        ensures { result ≡ late_fault (draft_value self.now) (said_value said.now) }
    {
        match said {
            Spoken::Nothing => None,
            Spoken::Memory(_) => fault_if(self.pages.is_some(), ManifestFault::Repeated),
            Spoken::Item(item) => item_fault(&self.items, item.kind),
            Spoken::Start(_) => fault_if(self.starts.len() >= MOST_STARTS, ManifestFault::TooMany),
            Spoken::Quanta(more) => {
                let room = MOST_QUANTA.saturating_sub(self.quanta.len());
                fault_if(
                    self.quanta.len() > MOST_QUANTA || more.len() > room,
                    ManifestFault::TooMany,
                )
            }
            Spoken::Repeat(_) => fault_if(self.count.is_some(), ManifestFault::Repeated),
            Spoken::Dump(_) => fault_if(self.dumps.len() >= MOST_DUMPS, ManifestFault::TooMany),
            Spoken::Watch(_) => fault_if(
                self.watches.len() >= MOST_WATCHES,
                ManifestFault::TooMany,
            ),
        }
    }

    /// Adds what a line says.
    pub fn add(&mut self, said: Spoken) -> Result<(), AllocError>
        ensures { IfOk result (λ _. draft_value self.new ≡ added (draft_value self.old) (said_value said)) }
    {
        match said {
            Spoken::Nothing => {}
            Spoken::Memory(pages) => self.pages = Some(pages),
            Spoken::Item(item) => self.items.push(item)?,
            Spoken::Start(start) => self.starts.push(start)?,
            Spoken::Quanta(quanta) => self.quanta.extend_from_slice(&quanta)?,
            Spoken::Repeat(count) => self.count = Some(count),
            Spoken::Dump(dump) => self.dumps.push(dump)?,
            Spoken::Watch(watch) => self.watches.push(watch)?,
        }
        Ok(())
    }

    /// The manifest, if it is a whole one.
    pub fn whole(self) -> Result<Manifest, ManifestRefusal>
        ensures { Reads (whole (draft_value self)) result }
    {
        if !self.starts.is_empty() && self.quanta.is_empty() {
            return Err(ManifestRefusal::At {
                line: 0,
                fault: ManifestFault::NoQuanta,
            });
        }
        if self.starts.is_empty() {
            return Err(ManifestRefusal::At {
                line: 0,
                fault: ManifestFault::NoStart,
            });
        }
        Ok(self.manifest())
    }

    /// The manifest of all that was said.
    pub fn manifest(self) -> Manifest
        ensures { manifest_value result ≡ manifest_by (draft_value self) }
    {
        Manifest {
            pages: self.pages.unwrap_or(DEFAULT_PAGES),
            items: self.items,
            starts: self.starts,
            quanta: self.quanta,
            repeat: self.count.unwrap_or(1),
            dumps: self.dumps,
            watches: self.watches,
        }
    }
}

/// The fault of an item line of this kind behind those of these items.
fn item_fault(items: &[Item], kind: ItemKind) -> Option<ManifestFault>
    ensures { result ≡ first (item_rows (map item_value items.now) kind) }
{
    if repeats(items, kind) {
        return Some(ManifestFault::Repeated);
    }
    fault_if(items.len() >= MOST_ITEMS, ManifestFault::TooMany)
}

/// Whether a line of this kind may stand once, and stands already.
fn repeats(items: &[Item], kind: ItemKind) -> bool
    ensures { result ≡ repeats (map item_value items.now) kind }
{
    match kind {
        ItemKind::Stdin => items.iter().any(|item| is_stdin(item.kind)),
        ItemKind::Root => items.iter().any(|item| is_root(item.kind)),
        _ => false,
    }
}

fn is_stdin(kind: ItemKind) -> bool
    ensures { result ≡ is_stdin kind }
{
    matches!(kind, ItemKind::Stdin)
}

fn is_root(kind: ItemKind) -> bool
    ensures { result ≡ is_root kind }
{
    matches!(kind, ItemKind::Root)
}

fn fault_if(holds: bool, fault: ManifestFault) -> Option<ManifestFault>
    ensures { result ≡ first ((holds, fault) ∷ []) }
{
    if holds { Some(fault) } else { None }
}
