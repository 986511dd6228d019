//! The symbols around the entries with a fault, and those that they mean.

ghost use Rattle.std.specs.Prelude.{◌≡◌, ◌<◌, true, map, IfOk};
ghost use Rattle.elf32_reader.specs.Relas.{is_kept, rela_count};
ghost use Rattle.elf2flt_tool.specs.Faults.{entry_at};
ghost use Rattle.fault_texts.specs.InFile.{AreOfRead};
ghost use Rattle.fault_texts.specs.Listing.{in_subject, to_subject, faulty_entries};

use crate::counts::Subject;
use crate::entry::{EntryAt, entry_of};
use crate::sights::Sights;
use elf2flt_tool::Fault;
use std::alloc::{AllocError, Global};

/// The symbol around an entry's place, or the one of index 0, and the section where it stands.
fn in_subject(sights: &mut Sights<'_>, entry: EntryAt) -> Result<Subject, AllocError>
    requires kept { is_kept sights.old entry.section ≡ true }
    requires entry { entry.index < rela_count sights.old entry.section }
    ensures same { sights.new ≡ sights.old }
    ensures subject { IfOk result (λ subject. subject ≡ in_subject sights.old (entry_at entry.section entry.index)) }
{
    let kept = sights.elf().section(entry.section);
    let sight = sights.sight(entry)?;
    Ok(Subject {
        section: kept.info,
        table: kept.link,
        symbol: sight.around.unwrap_or(0),
    })
}

/// The symbol that an entry means.
fn to_subject(sights: &mut Sights<'_>, entry: EntryAt) -> Result<Subject, AllocError>
    requires kept { is_kept sights.old entry.section ≡ true }
    requires entry { entry.index < rela_count sights.old entry.section }
    ensures same { sights.new ≡ sights.old }
    ensures subject { IfOk result (λ subject. subject ≡ to_subject sights.old (entry_at entry.section entry.index)) }
{
    let kept = sights.elf().section(entry.section);
    let sight = sights.sight(entry)?;
    Ok(Subject {
        section: 0,
        table: kept.link,
        symbol: sight.meant.symbol,
    })
}

/// Of each entry with a fault, the symbol around its place.
pub fn in_subjects(
    alloc: Global,
    sights: &mut Sights<'_>,
    found: &[Fault],
) -> Result<Vec<Subject>, AllocError>
    requires { AreOfRead sights.old found.now }
    ensures same { sights.new ≡ sights.old }
    ensures subjects { IfOk result (λ subjects. subjects.items ≡ map (in_subject sights.old) (faulty_entries found.now)) }
{
    let mut subjects = Vec::with_capacity(alloc, found.len())?;
    for fault in found {
        if let Some(entry) = entry_of(fault) {
            subjects.push(in_subject(sights, entry)?)?;
        }
    }
    Ok(subjects)
}

/// Of each entry with a fault, the symbol that it means.
pub fn to_subjects(
    alloc: Global,
    sights: &mut Sights<'_>,
    found: &[Fault],
) -> Result<Vec<Subject>, AllocError>
    requires { AreOfRead sights.old found.now }
    ensures same { sights.new ≡ sights.old }
    ensures subjects { IfOk result (λ subjects. subjects.items ≡ map (to_subject sights.old) (faulty_entries found.now)) }
{
    let mut subjects = Vec::with_capacity(alloc, found.len())?;
    for fault in found {
        if let Some(entry) = entry_of(fault) {
            subjects.push(to_subject(sights, entry)?)?;
        }
    }
    Ok(subjects)
}
